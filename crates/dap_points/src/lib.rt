//! Breakpoints of a client of the debug adapter, and what it asks for at places: cells set,
//! instructions, completions, targets.
#![tactic(auto)]

mod completions;
mod disassembly;
mod points;
mod set;

pub use completions::completions_view;
pub use disassembly::disassemble;
pub use points::{Points, breakpoint_locations, never};
pub use set::{goto_targets, write_memory};
