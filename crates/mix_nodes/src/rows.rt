//! The row of each node: how many links from a root it is at least.
ghost use Rattle.std.specs.Prelude.{◌≡◌, ◌≤◌, ◌<◌, ◌+◌, ◌==◌, ◌&&◌, ◌||◌, ℕ, Bool, false, None, IfOk, OnOk, length};
ghost use Rattle.std.specs.List.{list_any};
ghost use Rattle.std.specs.Option.{option_or};
ghost use Rattle.mix_nodes.specs.Nodes.{head_target, is_found, is_root, leads, leads_to, node_count, row_of};
ghost use Rattle.mix_nodes.specs.Rows.{is_row, row_if, row_in};

use crate::place::leads_to;
use crate::shape::{Shape, Target};
use mix_machine::World;
use mix_word::Reg;
use std::alloc::{AllocError, Global};

/// The registers that may point to nodes.
#[rattlefmt::skip]
pub(crate) const POINTERS: [Reg; 6] = [Reg::I1, Reg::I2, Reg::I3, Reg::I4, Reg::I5, Reg::I6];

fn is_of_head(world: &World, shape: &Shape, node: u16) -> bool
    ensures { result ≡ list_any (λ head. leads_to node (head_target world.now shape.now head)) shape.now.heads }
{
    shape
        .heads
        .iter()
        .any(|head| leads_to(node, shape.head_target(world, head)))
}

// Whether a head leads to a node. If there are no heads, each node is a root.
#[tactic(auto, unfolding(crate::specs::Nodes::is_root))]
fn is_root(world: &World, shape: &Shape, node: u16) -> bool
    ensures { result ≡ is_root world.now shape.now node }
{
    shape.heads.is_empty() || is_of_head(world, shape, node)
}

/// The row of a node in a list of rows.
pub(crate) fn row_in(rows: &[Option<u16>], node: u16) -> Option<u16>
    ensures { result ≡ row_in rows.now node }
{
    rows.get(usize::from(node)).copied().unwrap_or(None)
}

// Row 0 of each root.
fn root_rows(alloc: Global, world: &World, shape: &Shape) -> Result<Vec<Option<u16>>, AllocError>
    ensures len { IfOk result (λ rows. length rows.items ≡ node_count shape.now) }
    ensures rows { IfOk result (λ rows. (b : ℕ) → b < node_count shape.now → row_in rows.items b ≡ row_if (is_root world.now shape.now b) 0) }
{
    let count = shape.node_count();
    let mut rows = Vec::new(alloc);
    let mut node = 0;
    while node < count {
        let row = if is_root(world, shape, node) {
            Some(0)
        } else {
            None
        };
        rows.push(row)?;
        node += 1;
    }
    Ok(rows)
}

// Puts the node to which a link leads into a row, if it has none; whether there was one.
fn put_target(rows: &mut [Option<u16>], target: Target, row: u16) -> bool
    ensures len { length rows.new ≡ length rows.old }
    ensures none { result ≡ false → rows.new ≡ rows.old }
    ensures rows { (b : ℕ) → b < length rows.old → row_in rows.new b ≡ option_or (row_in rows.old b) (row_if (leads_to b target) row) }
{
    match target {
        Target::Node(node, _) => {
            let at = usize::from(node);
            if at < rows.len() && rows[at].is_none() {
                rows[at] = Some(row);
                true
            } else {
                false
            }
        }
        Target::Nil | Target::Inside(_) | Target::Out(_) => false,
    }
}

// Puts the nodes to which the links of one lead into a row, if they have none. Returns whether
// there was one.
#[tactic(auto, unfolding(crate::specs::Nodes::leads))]
fn put_targets(world: &World, shape: &Shape, node: u16, rows: &mut [Option<u16>], row: u16) -> bool
    requires node { node < node_count shape.now }
    ensures len { length rows.new ≡ length rows.old }
    ensures none { result ≡ false → rows.new ≡ rows.old }
    ensures rows { (b : ℕ) → b < length rows.old → row_in rows.new b ≡ option_or (row_in rows.old b) (row_if (leads world.now shape.now node b) row) }
{
    let mut found = false;
    let mut rest = &shape.links[..];
    while let [link, after @ ..] = rest {
        if put_target(rows, shape.link_target(world, node, *link), row) {
            found = true;
        }
        rest = after;
    }
    found
}

fn is_row(row: u16, other: Option<u16>) -> bool
    ensures { result ≡ is_row row other }
{
    match other {
        None => false,
        Some(other) => other == row,
    }
}

// Puts the nodes to which the links of a row lead into the next row, if they have none. Returns
// whether there was one.
fn add_row(world: &World, shape: &Shape, row: u16, rows: &mut [Option<u16>]) -> bool
    requires row { row < 4000 }
    requires all { length rows.old ≡ node_count shape.now }
    ensures len { length rows.new ≡ length rows.old }
    ensures none { result ≡ false → rows.new ≡ rows.old }
    ensures rows { (b : ℕ) → b < length rows.old → row_in rows.new b ≡ option_or (row_in rows.old b) (row_if (is_found world.now shape.now rows.old row (node_count shape.now) b) (row + 1)) }
{
    let count = shape.node_count();
    let mut found = false;
    let mut node = 0;
    while node < count {
        if is_row(row, row_in(rows, node)) && put_targets(world, shape, node, rows, row + 1) {
            found = true;
        }
        node += 1;
    }
    found
}

/// The row of each node: the least number of links from a head to it; none where it cannot be reached. Only out of memory refuses it.
pub fn rows_of(alloc: Global, world: &World, shape: &Shape) -> Result<Vec<Option<u16>>, AllocError>
    ensures { IfOk result (λ rows. (b : ℕ) → row_in rows.items b ≡ row_of world.now shape.now b) }
{
    let count = shape.node_count();
    let mut rows = root_rows(alloc, world, shape)?;
    let mut row = 0;
    while row + 1 < count {
        if !add_row(world, shape, row, &mut rows) {
            return Ok(rows);
        }
        row += 1;
    }
    Ok(rows)
}
