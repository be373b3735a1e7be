//! What the operations of MIX do, in words (The Art of Computer Programming, 1.3.1).
#![tactic(auto)]

mod sentences;

pub use sentences::sentence;
