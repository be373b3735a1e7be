//! Linked structures in the cells of a machine (The Art of Computer Programming, 2.2.3): nodes,
//! where their links lead, and in which rows they are.
#![tactic(auto)]

mod field;
mod graph;
mod item;
mod place;
mod read;
mod rows;
mod shape;
mod text;
mod words;

pub use graph::{Graph, HeadTo, Link, Node, graph_of};
pub use read::read_shape;
pub use rows::rows_of;
pub use shape::{FieldAt, Head, HeadLink, Shape, Target};
pub use text::nodes_text;
