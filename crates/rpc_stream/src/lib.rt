//! A client over a stream: frames that are heard one by one, requests that are answered, and messages that are sent, each in its frame.
#![tactic(auto)]

mod broken;
mod hear;
mod sending;
mod serves;
mod talk;

pub use broken::Broken;
pub use hear::{Ear, Heard};
pub use sending::{send, send_one};
pub use serves::{Serves, Turn};
pub use talk::Talk;
