//! What there is to say of a source, as a compiler reports it: each fault and each warning with its file, line and column, the line,
//! and a mark; or as one JSON object a line.
#![tactic(auto)]

mod checked;
mod dialect;
mod foreign;
mod halt;
mod help;
mod later;
mod mark;
mod missing;
mod near;
mod remedy;
mod report;
mod values;

pub use checked::{Checked, bytes_at};
pub use halt::{no_halt, no_halt_text};
pub use near::{is_near, near_to};
pub use remedy::{Fix, Remedy, unit_name};
pub use report::{add_json_report, add_report};
pub use values::{code, severity};
