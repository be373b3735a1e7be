//! A language server for MIXAL: messages of the Language Server Protocol in, responses and
//! notifications out.
#![tactic(auto)]

mod actions;
mod completion;
mod document;
mod finder;
mod folds;
mod hover;
mod initialize;
mod look;
mod mending;
mod mnemonic;
mod names;
mod pairs;
mod params;
mod phase;
mod place;
mod published;
mod renaming;
mod replies;
mod server;
mod stream;
mod tokens;

pub use phase::Phase;
pub use place::Encoding;
pub use server::{Answer, Server};
pub use stream::serve;
