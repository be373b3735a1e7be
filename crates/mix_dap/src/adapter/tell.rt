//! What was done is told: the request is answered, and then comes what the client has to know.
#![tactic(auto, using(crate::proofs::EventLemmas::answering))]

ghost use Rattle.std.specs.Prelude.{◌≡◌, [], IfOk, OnOk};
ghost use Rattle.mix_dap.specs.Prelude.{invalidated, Answered, Keeps, AddsReply, end_of};
ghost use Rattle.mix_dap.specs.Reaction.{acted, beside, replied, restarted, stepped};

use crate::adapter::bodies::{line_body, said_body, worth_body};
use crate::adapter::ends::fault_in;
use crate::adapter::{Adapter, Then, Way};
use dap_asked::{Act, nothing, value_asked, worth_asked};
use mix_machine::{MixFault, Reg};
use mix_refused::Memory;
use mix_session::{Answer, End};
use rpc_message::{Outbox, Request};
use serde_json::json;

impl Adapter {
    // What an act has done, and what comes then.
    pub(crate) fn tell(
        &mut self,
        act: Act,
        answer: Answer,
        request: &Request,
        out: &mut Outbox,
    ) -> Result<Then, Memory>
        ensures keeps { Keeps self.old self.new }
        ensures session { self.new.session ≡ self.old.session }
        ensures reacts { IfOk result (λ then. Answered (acted act answer (beside self.old) self.old.session.timeline) request.now self.new then out.old out.new) }
    {
        match act {
            Act::Step | Act::StepBack => self.tell_step(answer, request, out),
            Act::Continue => {
                self.fault = None;
                let body = json!(in self.alloc; {"allThreadsContinued": true})?;
                out.reply(request, body)?;
                Ok(Then::Run(Way::Forth(None)))
            }
            Act::StepOut => {
                self.fault = None;
                out.reply(request, nothing())?;
                let until = self.session.world().register(Reg::J).magnitude();
                Ok(Then::Run(Way::Forth(u16::try_from(until).ok())))
            }
            Act::ReverseContinue => {
                self.fault = None;
                out.reply(request, nothing())?;
                Ok(Then::Run(Way::Back))
            }
            Act::Begin => {
                out.reply(request, nothing())?;
                let then = self.begin(out)?;
                Ok(then)
            }
            Act::Goto => {
                out.reply(request, nothing())?;
                self.stopped("goto", None, out)?;
                Ok(Then::Wait)
            }
            Act::SetVariable => {
                let value = value_asked(self.alloc, self.session.world(), request)?;
                self.tell_value(value.as_str(), request, out)?;
                Ok(Then::Wait)
            }
            Act::SetExpression => {
                let value = worth_asked(self.alloc, &self.session, request)?;
                self.tell_value(value.as_str(), request, out)?;
                Ok(Then::Wait)
            }
            Act::Evaluate => {
                let body = worth_body(self.alloc, &self.session, request)?;
                out.reply(request, body)?;
                Ok(Then::Wait)
            }
        }
    }

    // A step, which the session has answered so.
    fn tell_step(
        &mut self,
        answer: Answer,
        request: &Request,
        out: &mut Outbox,
    ) -> Result<Then, Memory>
        ensures keeps { Keeps self.old self.new }
        ensures session { self.new.session ≡ self.old.session }
        ensures reacts { IfOk result (λ then. Answered (stepped answer (beside self.old) self.old.session.timeline) request.now self.new then out.old out.new) }
    {
        out.reply(request, nothing())?;
        self.stop_step(end_of(answer), out)?;
        Ok(Then::Wait)
    }

    // The value of what was set.
    fn tell_value(&self, value: &str, request: &Request, out: &mut Outbox) -> Result<(), Memory>
        ensures { OnOk result (AddsReply request.now (invalidated self.now.client) out.old out.new) }
    {
        let body = json!(in self.alloc; {"value": value})?;
        out.reply(request, body)?;
        self.invalidated(out)?;
        Ok(())
    }

    // The reply to a line of the script, and what it has written.
    pub(crate) fn tell_command(
        &mut self,
        line: &[u8],
        answer: Answer,
        request: &Request,
        out: &mut Outbox,
    ) -> Result<Then, Memory>
        ensures keeps { Keeps self.old self.new }
        ensures session { self.new.session ≡ self.old.session }
        ensures reacts { IfOk result (λ then. Answered (replied (beside self.old) self.old.session.timeline) request.now self.new then out.old out.new) }
    {
        self.fault = None;
        let text = self.session.text(&answer)?;
        self.tell_reply(line, text.as_slice(), fault_in(answer), request, out)?;
        self.printed.tell(self.alloc, self.session.world(), out)?;
        self.invalidated(out)?;
        Ok(Then::Wait)
    }

    // A line of the script, its reply, and the fault that has ended its steps.
    fn tell_reply(
        &self,
        line: &[u8],
        text: &[u8],
        fault: Option<MixFault>,
        request: &Request,
        out: &mut Outbox,
    ) -> Result<(), Memory>
        ensures { OnOk result (AddsReply request.now [] out.old out.new) }
    {
        let body = line_body(self.alloc, line, text, fault)?;
        out.reply(request, body)?;
        Ok(())
    }

    // What is only said of a line of the console.
    pub(crate) fn tell_said(
        &self,
        text: &[u8],
        request: &Request,
        out: &mut Outbox,
    ) -> Result<(), Memory>
        ensures { OnOk result (AddsReply request.now [] out.old out.new) }
    {
        let body = said_body(self.alloc, text)?;
        out.reply(request, body)?;
        Ok(())
    }

    // The beginning again.
    pub(crate) fn tell_beginning(
        &mut self,
        request: &Request,
        out: &mut Outbox,
    ) -> Result<Then, Memory>
        ensures keeps { Keeps self.old self.new }
        ensures session { self.new.session ≡ self.old.session }
        ensures reacts { IfOk result (λ then. Answered (restarted (beside self.old) self.old.session.timeline) request.now self.new then out.old out.new) }
    {
        out.reply(request, nothing())?;
        self.printed.tell(self.alloc, self.session.world(), out)?;
        let then = self.begin(out)?;
        Ok(then)
    }
}

// How a step has ended; what is no step has come to what was asked.
fn end_of(answer: Answer) -> End
    ensures { result ≡ end_of answer }
{
    match answer {
        Answer::Ran(_, end) => end,
        _ => End::Limit,
    }
}
