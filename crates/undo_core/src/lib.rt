//! States whose changes can be taken back by the values that they overwrote, and a journal over any of them.
#![tactic(auto)]

mod adding;
mod changes;
mod journal;
mod kept;
mod pack;
mod past;
mod places;
mod runs;
mod undo;
mod values;

pub use changes::Changes;
pub use journal::Journal;
pub use kept::{Kept, revert};
pub use mix_refused::{Memory, Refused};
pub use pack::{Last, Pack, PackAll};
pub use past::Past;
pub use undo::Undo;
pub use values::Values;
