//! A debug adapter over a session: requests of the Debug Adapter Protocol in, responses and events out, and the stream outside it.
#![tactic(auto)]

mod adapter;
mod broken;
mod capabilities;
mod console;
mod dialogue;
mod event;
mod launch;
mod loaded;
mod printed;
mod report;
mod served;
mod stream;
mod waiting;

pub use adapter::{Adapter, Flow};
pub use dap_asked::Fault;
pub use dialogue::Dialogue;
pub use launch::{FileLibrary, Library, NoLibrary, Texts};
pub use rpc_frame::{Next, frame, next_frame};
pub use rpc_message::{Outbox, Request};
pub use stream::{serve, serve_from};
pub use waiting::{Asked, Waiting};
