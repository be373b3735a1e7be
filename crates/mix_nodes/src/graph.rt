//! The nodes of a shape at a moment: where the heads, the registers and the links lead, and in which row each node is.
ghost use Rattle.std.specs.Prelude.{◌≡◌, ◌<◌, ℕ, IfOk, map};
ghost use Rattle.mix_nodes.specs.Graph.{node_seen, nodes_below};
ghost use Rattle.mix_nodes.specs.Nodes.{location_of, node_count, row_of};
ghost use Rattle.mix_nodes.specs.Rows.{row_in};

use crate::place::value_of;
use crate::rows::{POINTERS, row_in, rows_of};
use crate::shape::{Shape, Target};
use mix_machine::World;
use mix_refused::Memory;
use mix_word::{Reg, Word};
use std::alloc::Global;

/// A link of a node.
#[derive(Clone, Copy)]
pub struct Link {
    /// Where it leads.
    pub target: Target,
    /// Whether it leads to a node whose row is not greater, as one link of each ring does.
    pub is_back: bool,
}

/// A head as it was typed, and where it leads.
#[derive(Drop)]
pub struct HeadTo {
    pub text: Vec<u8>,
    pub target: Target,
}

/// A node that can be reached.
#[derive(Drop)]
pub struct Node {
    /// The cell of its first word.
    pub cell: u16,
    /// The least number of links from a head to it.
    pub row: u16,
    pub labels: Vec<Word>,
    pub links: Vec<Link>,
}

/// What is seen of a shape.
#[derive(Drop)]
pub struct Graph {
    pub heads: Vec<HeadTo>,
    /// The index registers that lead to a node, and its cell.
    pub pointers: Vec<(Reg, u16)>,
    /// The nodes that can be reached, by rising cells.
    pub nodes: Vec<Node>,
    /// How many cannot be reached.
    pub unreached: usize,
}

// Whether a link of a node of a row leads to a node whose row is not greater.
fn leads_back(rows: &[Option<u16>], row: u16, target: &Target) -> bool {
    match target {
        Target::Node(node, _) => match row_in(rows, *node) {
            Some(other) => other <= row,
            None => true,
        },
        Target::Nil | Target::Inside(_) | Target::Out(_) => false,
    }
}

// A node of a row, with its labels and its links.
fn node_of(
    alloc: Global,
    world: &World,
    shape: &Shape,
    rows: &[Option<u16>],
    node: u16,
    row: u16,
) -> Result<Node, Memory>
    requires { node < node_count shape.now }
    ensures { IfOk result (λ found. node_seen found ≡ (location_of shape.now node, row)) }
{
    let cell = shape.location_of(node);
    let mut labels = Vec::new(alloc);
    for field in &shape.labels {
        labels.push(value_of(world, cell, *field))?;
    }
    let mut links = Vec::new(alloc);
    for field in &shape.links {
        let target = shape.link_target(world, node, *field);
        let is_back = leads_back(rows, row, &target);
        links.push(Link { target, is_back })?;
    }
    Ok(Node {
        cell,
        row,
        labels,
        links,
    })
}

// The nodes that have a row.
#[tactic(auto, unfolding(crate::specs::Graph::nodes_below))]
fn nodes_of(
    alloc: Global,
    world: &World,
    shape: &Shape,
    rows: &[Option<u16>],
) -> Result<Vec<Node>, Memory>
    requires { (b : ℕ) → row_in rows.now b ≡ row_of world.now shape.now b }
    ensures { IfOk result (λ nodes. map node_seen nodes.items ≡ nodes_below world.now shape.now (node_count shape.now)) }
{
    let mut nodes = Vec::new(alloc);
    for node in 0..shape.node_count() {
        match row_in(rows, node) {
            None => {}
            Some(row) => nodes.push(node_of(alloc, world, shape, rows, node, row)?)?,
        }
    }
    Ok(nodes)
}

/// What is seen of a shape: of each node that can be reached the least number of links from a head. Only out of memory refuses it.
pub fn graph_of(alloc: Global, world: &World, shape: &Shape) -> Result<Graph, Memory>
    ensures { IfOk result (λ graph. map node_seen graph.nodes.items ≡ nodes_below world.now shape.now (node_count shape.now)) }
{
    let rows = rows_of(alloc, world, shape)?;
    let mut heads = Vec::new(alloc);
    for head in &shape.heads {
        let text = Vec::from_slice(alloc, head.text)?;
        let target = shape.head_target(world, head);
        heads.push(HeadTo { text, target })?;
    }
    let mut pointers = Vec::new(alloc);
    for register in &POINTERS {
        if let Target::Node(_, cell) = shape.target_of(world.register(*register)) {
            pointers.push((*register, cell))?;
        }
    }
    let nodes = nodes_of(alloc, world, shape, &rows)?;
    let unreached = usize::from(shape.node_count()).saturating_sub(nodes.len());
    Ok(Graph {
        heads,
        pointers,
        nodes,
        unreached,
    })
}
