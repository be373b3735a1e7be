//! How a stranger's bytes are shown where a terminal may read them: whole characters that can do no harm, and a question mark for each other byte.
#![tactic(auto)]

mod character;
mod shown;

pub use character::{Among, add_shown};
pub use shown::Shown;
