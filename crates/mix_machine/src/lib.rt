//! The MIX computer: its state, its steps, and how each step is taken back (The Art of Computer Programming, 1.3.1).
#![tactic(auto)]

mod access;
mod address;
mod breakpoints;
mod cells;
mod change;
mod decode;
mod fault;
mod laws;
mod load;
mod many;
mod old;
mod pack;
mod part;
mod perform;
mod plan;
mod registers;
mod restore;
mod step;
mod time;
mod transfer;
mod transfers;
mod undo;
mod units;
mod watch;
mod world;
mod write;

pub use access::Span;
pub use fault::MixFault;
pub use laws::{change_law, halt_law, kept_count_law, mark_law};
pub use many::Many;
pub use mix_word::{Cmp, Place, Reg, Sign, Word};
pub use old::{Change, Old};
pub use pack::Anchor;
pub use part::{Mark, Part, mark_before};
pub use time::Time;
pub use transfers::{Conflict, Direction, Pending, Transfers, transfer_law};
pub use units::{
    DeckFault, DeckKind, MAX_DECK_BYTES, Row, Unit, UnitKind, UnitNo, Units, are_same_words,
};
pub use watch::{Seen, Watch};
pub use world::World;
