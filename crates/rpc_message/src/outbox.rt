//! Messages that wait to be sent.

ghost use Rattle.std.specs.Prelude.{◌≡◌, [], true, false, map, IfOk, OnOk, OnErr};
ghost use Rattle.serde_json.specs.View.{view};
ghost use Rattle.rpc_message.specs.Fields.{members_in};
ghost use Rattle.rpc_message.specs.Message.{response_head, refusal_error, refusal_body, output_body, numbered, reply_message, refusal_message, event_message, output_message, waits, Adds, Stays};

use crate::fields::Fields;
use crate::request::Request;
use mix_refused::Memory;
use serde_json::Value;
use std::alloc::Global;

/// The messages that wait to be sent, each the value of one JSON object, in their order.
#[derive(Drop)]
pub struct Outbox {
    alloc: Global,
    seq: u64,
    messages: Vec<Value>,
}

impl Outbox {
    /// No message; the first one will have the number 1.
    pub fn new(alloc: Global) -> Outbox
        ensures none { waits result ≡ [] }
        ensures seq { result.seq ≡ 0 }
    {
        Outbox {
            alloc,
            seq: 0,
            messages: Vec::new(alloc),
        }
    }

    /// The messages that wait.
    pub fn messages(&self) -> &[Value]
        ensures { map view result.now ≡ waits self.now }
    {
        self.messages.as_slice()
    }

    /// No message waits any more.
    pub fn clear(&mut self)
        ensures none { waits self.new ≡ [] }
        ensures seq { self.new.seq ≡ self.old.seq }
    {
        self.messages.clear();
    }

    /// Answers a request that was done; a body of `Null` is left out. Out of memory, here and below, no message more waits.
    pub fn reply(&mut self, to: &Request, body: Value) -> Result<(), Memory>
        ensures told { OnOk result (Adds self.old self.new (λ seq. reply_message seq to.now (view body))) }
        ensures stays { OnErr result (Stays self.old self.new) }
    {
        let head = self.response(to, true)?;
        self.send(head, body)
    }

    /// Answers a request that was refused, with a number and a text, and with what the text tells of as values; variables of `Null` are left out.
    pub fn refuse(
        &mut self,
        to: &Request,
        number: u64,
        text: &str,
        variables: Value,
    ) -> Result<(), Memory>
        ensures told { OnOk result (Adds self.old self.new (λ seq. refusal_message seq to.now number text.now (view variables))) }
        ensures stays { OnErr result (Stays self.old self.new) }
    {
        let mut head = self.response(to, false)?;
        head.text("message", text)?;
        let body = self.refusal(number, text, variables)?;
        self.send(head, body)
    }

    /// Tells of an event; a body of `Null` is left out.
    pub fn event(&mut self, name: &str, body: Value) -> Result<(), Memory>
        ensures told { OnOk result (Adds self.old self.new (λ seq. event_message seq name.now (view body))) }
        ensures stays { OnErr result (Stays self.old self.new) }
    {
        let mut head = Fields::new(self.alloc);
        head.text("type", "event")?;
        head.text("event", name)?;
        self.send(head, body)
    }

    /// Tells a text to the one who debugs, of a category: `stdout` is the program's, `console` and `important` are the adapter's.
    pub fn output(&mut self, category: &str, text: &str) -> Result<(), Memory>
        ensures told { OnOk result (Adds self.old self.new (λ seq. output_message seq category.now text.now)) }
        ensures stays { OnErr result (Stays self.old self.new) }
    {
        let body = self.text(category, text)?;
        self.event("output", body)
    }

    fn text(&self, category: &str, text: &str) -> Result<Value, Memory>
        ensures { IfOk result (λ body. view body ≡ output_body category.now text.now) }
    {
        let mut body = Fields::new(self.alloc);
        body.text("category", category)?;
        body.text("output", text)?;
        Ok(body.done())
    }

    // What a refusal tells of its fault.
    fn refusal(&self, number: u64, text: &str, variables: Value) -> Result<Value, Memory>
        ensures { IfOk result (λ body. view body ≡ refusal_body number text.now (view variables)) }
    {
        let error = self.error(number, text, variables)?;
        let mut body = Fields::new(self.alloc);
        body.put("error", error)?;
        Ok(body.done())
    }

    fn error(&self, number: u64, text: &str, variables: Value) -> Result<Value, Memory>
        ensures { IfOk result (λ error. view error ≡ refusal_error number text.now (view variables)) }
    {
        let mut error = Fields::new(self.alloc);
        error.number("id", number)?;
        error.text("format", text)?;
        error.flag("showUser", true)?;
        if !variables.is_null() {
            error.put("variables", variables)?;
        }
        Ok(error.done())
    }

    // What every response has.
    fn response(&self, to: &Request, success: bool) -> Result<Fields, Memory>
        ensures { IfOk result (λ head. members_in head ≡ response_head to.now success) }
    {
        let mut head = Fields::new(self.alloc);
        head.text("type", "response")?;
        head.number("request_seq", to.seq())?;
        head.text("command", to.name())?;
        head.flag("success", success)?;
        Ok(head)
    }

    // A message with the next number.
    fn send(&mut self, head: Fields, body: Value) -> Result<(), Memory>
        ensures told { OnOk result (Adds self.old self.new (λ seq. numbered seq (members_in head) (view body))) }
        ensures stays { OnErr result (Stays self.old self.new) }
    {
        let mut message = head;
        let seq = self.seq.wrapping_add(1);
        message.number("seq", seq)?;
        if !body.is_null() {
            message.put("body", body)?;
        }
        self.messages.push(message.done())?;
        self.seq = seq;
        Ok(())
    }
}
