//! `mix/nodes`: linked nodes, as `show nodes` has them.

use crate::view::{number_shown, put_number};
use dap_asked::Fault;
use mix_lines::Words;
use mix_machine::Word;
use mix_nodes::{Graph, Node, Target};
use mix_refused::{Memory, Refused};
use mix_session::{Refusal, Session};
use mix_views::nodes_asked;
use rpc_message::{Fields, Request};
use serde_json::{Value, json};
use std::alloc::Global;

/// Where the heads and the registers lead, the nodes with their labels and links, and how many are not reached.
pub fn nodes_view(
    alloc: Global,
    session: &Session,
    request: &Request,
) -> Result<Value, Refused<Fault>> {
    let of = request.text("of").unwrap_or("");
    match nodes_asked(alloc, session, &mut Words::of(of.as_bytes()))? {
        Some(graph) => Ok(graph_shown(alloc, &graph)?),
        None => Err(Refused::Fault(Fault::Session(Refusal::BadArgument))),
    }
}

fn graph_shown(alloc: Global, graph: &Graph) -> Result<Value, Memory> {
    let mut heads = Vec::new(alloc);
    for head in &graph.heads {
        let mut fields = Fields::new(alloc);
        fields.text("head", String::from_utf8_lossy(alloc, &head.text)?.as_str())?;
        put_target(alloc, &mut fields, head.target)?;
        heads.push(fields.done())?;
    }
    let mut pointers = Vec::new(alloc);
    for (register, cell) in &graph.pointers {
        let (name, cell) = (register.name(), u64::from(*cell));
        pointers.push(json!(in alloc; {"register": name, "cell": cell})?)?;
    }
    let mut nodes = Vec::new(alloc);
    for node in &graph.nodes {
        nodes.push(node_shown(alloc, node)?)?;
    }
    let unreached = graph.unreached as u64;
    Ok(
        json!(in alloc; {"heads": heads, "pointers": pointers, "nodes": nodes, "unreached": unreached})?,
    )
}

fn node_shown(alloc: Global, node: &Node) -> Result<Value, Memory> {
    let mut links = Vec::new(alloc);
    for link in &node.links {
        let mut fields = Fields::new(alloc);
        put_target(alloc, &mut fields, link.target)?;
        fields.flag("back", link.is_back)?;
        links.push(fields.done())?;
    }
    let labels = numbers_shown(alloc, &node.labels)?;
    let (cell, row) = (u64::from(node.cell), u64::from(node.row));
    Ok(json!(in alloc; {"cell": cell, "row": row, "labels": labels, "links": links})?)
}

/// The numbers of words.
pub(crate) fn numbers_shown(alloc: Global, words: &[Word]) -> Result<Vec<Value>, Memory> {
    let mut list = Vec::new(alloc);
    for word in words {
        list.push(number_shown(alloc, *word)?)?;
    }
    Ok(list)
}

// Where a link leads: to the `cell` of a node, `inside` one, or `out` of all; nothing is said of nil.
fn put_target(alloc: Global, fields: &mut Fields, target: Target) -> Result<(), Memory> {
    match target {
        Target::Nil => Ok(()),
        Target::Node(_, cell) => fields.number("cell", u64::from(cell)),
        Target::Inside(cell) => fields.number("inside", u64::from(cell)),
        Target::Out(link) => put_number(alloc, fields, "out", link),
    }
}
