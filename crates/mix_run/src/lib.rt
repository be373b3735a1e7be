//! The runs over streams: it cuts a bundle into source, deck and script, assembles the source, and executes the script, lists the source, or runs
//! a program and writes what it prints; or it reports what is wrong with some sources.
#![tactic(auto)]

mod beside;
mod bundle;
mod check;
mod commands;
mod fault;
mod keep;
mod list;
mod map;
mod opener;
mod print;
mod reason;
mod replaces;
mod run;
mod statuses;
mod table;
mod talk;
mod typeset;
mod units;

pub use beside::tell_report;
pub use bundle::run_bundle;
pub use check::{Reports, no_reports, report_next, write_reports};
pub use fault::ToolFault;
pub use list::{run_list, run_typeset};
pub use mix_machine::{Conflict, Direction, MixFault};
pub use mix_session::{
    AsmFault, AsmKind, Counted, DeckFault, DeckKind, Failed, In, Out, Refusal, Session, Told,
    back_and_forth_law,
};
pub use opener::{Opener, Unread, Unsaved};
pub use print::options::{AskedTable, PrintOptions, TableOf, UnitSet};
pub use print::{ConflictAt, Conflicts, PrintAnswer, Printed, RanTo, RunEnd, Shows, run_printed};
pub use reason::Reason;
pub use replaces::{Replaces, may_go};
pub use run::{DebugOptions, run_debug};
pub use statuses::{DONE, NOT_DONE, SOURCE_REFUSED};
pub use table::TableFormat;
pub use talk::{Streams, TalkTexts, Talker, run_talk};
pub use units::{given_units, units_of, with_cards, with_typewriter};
