//! The command line: what the words after the program's name ask for, and what is answered to words that ask for nothing.
#![tactic(auto)]

mod about;
mod commands;
mod fault;
mod found;
mod program;
mod vain;
mod version;
mod words;

pub use fault::{FAILED, LineFault, line_status};
pub use vain::Vain;
pub use words::read_words;
