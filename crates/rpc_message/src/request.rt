//! Requests, read from the bodies of frames.

ghost use Rattle.std.specs.Prelude.{◌≡◌, Some, None, IfSome, IfNone, option_map};
ghost use Rattle.serde_json.specs.View.{view, items_view};
ghost use Rattle.rpc_message.specs.Fault.{message_fault_text};
ghost use Rattle.rpc_message.specs.Members.{request_seq};
ghost use Rattle.rpc_message.specs.Reads.{ReadsAs};
ghost use Rattle.rpc_message.specs.Request.{name_of, unless_null, member_of, are_arguments, argument_of, text_of, number_of, integer_of, flag_of, list_of};

use crate::whole::{integer, natural};
use mix_refused::Refused;
use serde_json::Value;
use std::alloc::Global;
use std::fmt;

/// Why a body is no request.
#[derive(Clone, Copy)]
pub enum MessageFault {
    /// It is no JSON, no UTF-8, or nested deeper than 127.
    NotJson,
    /// It is no object of the type `request` with a `seq` and a `command`.
    NotRequest,
}

impl fmt::Display for MessageFault {
    ghost output = { λ fault. Some (message_fault_text fault) };

    fn fmt<W: fmt::Write>(&self, f: &mut fmt::Formatter<W>) -> fmt::Result {
        match self {
            MessageFault::NotJson => write!(f, "not JSON"),
            MessageFault::NotRequest => write!(f, "not a request"),
        }
    }
}

/// A request: a message of the type `request`.
#[derive(Drop)]
pub struct Request {
    message: Value,
    seq: u64,
}

impl Request {
    /// The request that a body is. `Memory` where there is no room for it.
    pub fn read(alloc: Global, body: &[u8]) -> Result<Request, Refused<MessageFault>>
        ensures { ReadsAs body.now result }
    {
        match Value::from_slice(alloc, body) {
            Ok(message) => request_in(message).ok_or(Refused::Fault(MessageFault::NotRequest)),
            Err(error) if error.is_memory() => Err(Refused::Memory),
            Err(_) => Err(Refused::Fault(MessageFault::NotJson)),
        }
    }

    /// Its number.
    pub fn seq(&self) -> u64
        ensures { result ≡ self.now.seq }
    {
        self.seq
    }

    /// The name of what it asks for.
    pub fn name(&self) -> &str
        ensures { result.now ≡ name_of self.now }
    {
        match self.message.get("command").and_then(Value::as_str) {
            Some(name) => name,
            None => "",
        }
    }

    /// Whether its arguments are an object, or there are none.
    pub fn has_arguments(&self) -> bool
        ensures { result ≡ are_arguments self.now }
    {
        match member_of(&self.message, "arguments") {
            Some(arguments) => arguments.is_object(),
            None => true,
        }
    }

    /// An argument, if it is there; one that is null is not.
    pub fn argument(&self, name: &str) -> Option<&Value>
        ensures { option_map (λ v. view v.now) result ≡ argument_of self.now name.now }
    {
        member_of(self.message.get("arguments")?, name)
    }

    /// An argument that is a text.
    pub fn text(&self, name: &str) -> Option<&str>
        ensures { option_map (λ t. t.now) result ≡ text_of self.now name.now }
    {
        self.argument(name)?.as_str()
    }

    /// An argument that is a whole number, zero or more.
    pub fn number(&self, name: &str) -> Option<u64>
        ensures { result ≡ number_of self.now name.now }
    {
        natural(self.argument(name)?)
    }

    /// An argument that is a whole number.
    pub fn integer(&self, name: &str) -> Option<i64>
        ensures { result ≡ integer_of self.now name.now }
    {
        integer(self.argument(name)?)
    }

    /// Whether an argument is `true`.
    pub fn flag(&self, name: &str) -> bool
        ensures { result ≡ flag_of self.now name.now }
    {
        self.argument(name)
            .and_then(Value::as_bool)
            .unwrap_or(false)
    }

    /// An argument that is a list.
    pub fn list(&self, name: &str) -> Option<&[Value]>
        ensures { option_map (λ s. items_view s.now) result ≡ list_of self.now name.now }
    {
        Some(self.argument(name)?.as_array()?.as_slice())
    }
}

/// A member of an object, if it is there; one that is null is not.
pub fn member_of<'v>(object: &'v Value, name: &str) -> Option<&'v Value>
    ensures { option_map (λ v. view v.now) result ≡ member_of name.now (view object.now) }
{
    let member = object.get(name)?;
    if member.is_null() { None } else { Some(member) }
}

// The request that a message is.
fn request_in(message: Value) -> Option<Request>
    ensures request { IfSome result (λ r. (view r.message ≡ view message) × (request_seq (view message) ≡ Some r.seq)) }
    ensures none { IfNone result (request_seq (view message) ≡ None) }
{
    let seq = seq_in(&message)?;
    Some(Request { message, seq })
}

// Its number, if it is a request.
fn seq_in(message: &Value) -> Option<u64>
    ensures { result ≡ request_seq (view message.now) }
{
    let kind = message.get("type")?.as_str()?;
    if kind != "request" {
        return None;
    }
    message.get("command")?.as_str()?;
    natural(message.get("seq")?)
}
