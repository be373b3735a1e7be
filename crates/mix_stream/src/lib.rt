//! Readers and writers that count their failures, reading up to a limit, and writing all of some bytes.
#![tactic(auto)]

mod counted;
pub mod fake;
mod input;
mod output;

pub use counted::{Counted, Failed};
pub use input::{CHUNK, In, read_up_to};
pub use output::{Out, write_all};
