//! The messages of the Debug Adapter Protocol: requests as they are read, and responses and events as they are written.
#![tactic(auto)]

mod fields;
mod outbox;
mod request;
mod whole;

pub use fields::Fields;
pub use outbox::Outbox;
pub use request::{MessageFault, Request, member_of};
pub use whole::{integer, natural};
