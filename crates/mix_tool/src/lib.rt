//! The tool: what a plan asks for is done on its files, and a fault is told.
#![tactic(auto)]

mod asked;
mod check;
mod debug;
mod ending;
mod keep;
mod plan;
mod ran;
mod read;
mod run;
mod save;
pub mod shelf;
mod system;
mod texts;

pub use mix_cli::{FAILED, LineFault, line_status, read_words};
pub use mix_dap::serve;
pub use mix_plan::{DebugPlan, Plan, RunPlan};
pub use mix_run::{
    AsmFault, AsmKind, ConflictAt, Conflicts, Counted, DeckFault, DeckKind, Failed, In, MixFault,
    Opener, Out, PrintAnswer, PrintOptions, RanTo, Reason, Refusal, RunEnd, Session, Streams,
    TalkTexts, Talker, Told, ToolFault, UnitSet, Unread, Unsaved, back_and_forth_law, run_bundle,
    run_debug, run_list, run_printed, run_talk,
};
pub use plan::run_plan;
pub use system::SystemFiles;
