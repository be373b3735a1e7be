//! The counts of a program's lines that stand in its remarks in square brackets, as `[N-1+B-A]`,
//! beside the measured ones.
#![tactic(auto)]

mod analysis;
mod arithmetic;
mod formula;
mod found;
mod given;
mod names;
mod rows;
mod said;
mod text;
mod value;

pub use analysis::{Analysis, Judged, Verdict, analysis_of};
pub use given::given_of;
pub use names::Named;
pub use rows::Row;
pub use said::{analysis_text, beside_text, value_text};
pub use text::bracket_of;
pub use value::Value;
