//! Why a call was refused: a fault of its own, or out of memory.
#![tactic(auto)]

mod refused;

pub use refused::{Memory, Refused};
