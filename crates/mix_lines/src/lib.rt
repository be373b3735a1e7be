//! The lines of a text, the words of a line, and numbers written in digits.
#![tactic(auto)]

mod lines;
mod numbers;
mod words;

pub use lines::{is_blank, is_comment, line_text, split_line, split_whole_line};
pub use numbers::{all_digits, long_number, number};
pub use words::{Words, next_word};
