//! What a command line asks for, as one record: the words are read into it, and the tool does what it says.
#![tactic(auto)]

mod plan;
mod run;

pub use plan::{DebugPlan, Plan};
pub use run::{AskedTable, RunPlan, TableFormat, TableOf, UnitSet};
