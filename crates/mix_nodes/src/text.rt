//! What `show nodes` writes: the heads, the registers that point to nodes, the nodes, and how many
//! of these can't be reached.

use crate::graph::{Graph, Node};
use crate::shape::Target;
use mix_refused::Memory;
use mix_word::{Location, Number};
use std::alloc::{AllocError, Global};

// Appends where a link leads.
fn add_target(text: &mut Vec<u8>, target: Target) -> Result<(), AllocError> {
    let alloc = *text.allocator();
    let said = match target {
        Target::Nil => return text.extend_from_slice(b"nil"),
        Target::Node(_, cell) => {
            let cell = Location(cell);
            format!(in alloc; "{cell}")?
        }
        Target::Inside(cell) => {
            let cell = Location(cell);
            format!(in alloc; "inside:{cell}")?
        }
        Target::Out(link) => {
            let link = Number(link);
            format!(in alloc; "out:{link}")?
        }
    };
    text.extend_from_slice(said.as_bytes())
}

// Appends the line of a node: its row, its labels and its links.
fn add_node(text: &mut Vec<u8>, node: &Node) -> Result<(), AllocError> {
    let alloc = *text.allocator();
    let (place, row) = (Location(node.cell), node.row);
    let head = format!(in alloc; "node {place} row {row}")?;
    text.extend_from_slice(head.as_bytes())?;
    if !node.labels.is_empty() {
        text.extend_from_slice(b" label")?;
    }
    for value in &node.labels {
        let value = Number(*value);
        let label = format!(in alloc; " {value}")?;
        text.extend_from_slice(label.as_bytes())?;
    }
    text.extend_from_slice(b" links")?;
    for link in &node.links {
        text.push(b' ')?;
        if link.is_back {
            text.extend_from_slice(b"back:")?;
        }
        add_target(text, link.target)?;
    }
    text.push(b'\n')?;
    Ok(())
}

/// The lines of `show nodes`.
pub fn nodes_text(alloc: Global, graph: &Graph) -> Result<Vec<u8>, Memory> {
    let mut text = Vec::new(alloc);
    for head in &graph.heads {
        text.extend_from_slice(b"head ")?;
        text.extend_from_slice(&head.text)?;
        text.push(b' ')?;
        add_target(&mut text, head.target)?;
        text.push(b'\n')?;
    }
    for (register, cell) in &graph.pointers {
        let (name, place) = (register.name(), Location(*cell));
        let pointer = format!(in alloc; "pointer {name} {place}\n")?;
        text.extend_from_slice(pointer.as_bytes())?;
    }
    for node in &graph.nodes {
        add_node(&mut text, node)?;
    }
    let unreached = graph.unreached;
    if unreached != 0 {
        let line = format!(in alloc; "unreached {unreached}\n")?;
        text.extend_from_slice(line.as_bytes())?;
    }
    Ok(text)
}
