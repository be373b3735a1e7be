//! Frames of the base protocol of debug adapters: a header that gives the length of a body in bytes, a blank line, and the body.
#![tactic(auto)]

mod frames;

pub use frames::{MAX_BODY, MAX_HEADER, Next, frame, next_frame};
