//! The layout of a source of MIXAL (The Art of Computer Programming, 1.3.2): LOC, OP, ADDRESS and remarks each at a column of
//! their own, and the program as it was.
#![tactic(auto)]

mod alike;
mod line;
mod source;

pub use line::after_blanks;
pub use source::lay_out;
