//! A request is answered by what it is about.

ghost use Rattle.std.specs.Prelude.{◌≡◌, ◌⊎◌, [], ◌∷◌, codes, OnOk};
ghost use Rattle.mix_refused.specs.Refused.{IfMemory};
ghost use Rattle.mix_dap.specs.Prelude.{stopped, terminated, only};
ghost use Rattle.mix_dap.specs.Replies.{AddsReply, looked};
ghost use Rattle.mix_dap.specs.Reaction.{reaction, still};
ghost use Rattle.mix_dap.specs.Reacts.{AnsweredOr, Begins, KeepsSaid};

use crate::adapter::{Adapter, Then};
use crate::capabilities::capabilities;
use crate::event::tell_event;
use dap_asked::{Fault, Kind, nothing};
use dap_views::given_view;
use mix_refused::{Memory, Refused};
use rpc_message::{Outbox, Request};
use serde_json::Value;

impl Adapter {
    // What a request asks for, by what it is about, and what comes then.
    #[tactic(auto, using(crate::proofs::EventLemmas::answering))]
    pub(crate) fn answer(
        &mut self,
        kind: Kind,
        request: &Request,
        out: &mut Outbox,
    ) -> Result<Then, Refused<Fault>>
        ensures program { self.new.session.program ≡ self.old.session.program }
        ensures first { self.new.session.timeline.first ≡ self.old.session.timeline.first }
        ensures keeps { KeepsSaid self.old self.new }
        ensures reacts { AnsweredOr (reaction kind request.now self.old) request.now self.old self.new out.old out.new result }
        ensures begun { IfMemory result ((self.new.session.timeline ≡ self.old.session.timeline) ⊎ Begins kind request.now self.old.session self.new.session.timeline) }
    {
        match kind {
            Kind::Initialize => {
                let body = capabilities(self.alloc)?;
                out.reply(request, body)?;
                Ok(Then::Wait)
            }
            Kind::Look(look) => {
                let shown = self.show(look, request);
                self.tell_shown(shown, request, out)
            }
            Kind::Given(given) => {
                let shown = given_view(self.alloc, given, request);
                self.tell_shown(shown, request, out)
            }
            Kind::Points(target) => {
                let body = self.set_points(target, request)?;
                out.reply(request, body)?;
                Ok(Then::Wait)
            }
            Kind::Pause => {
                self.pause(request, out)?;
                Ok(Then::Wait)
            }
            Kind::Terminate => {
                self.terminate(request, out)?;
                Ok(Then::Wait)
            }
            Kind::Restart => Ok(self.restart(request, out)?),
            Kind::Cancel => {
                out.reply(request, nothing())?;
                Ok(Then::Wait)
            }
            Kind::Disconnect => {
                out.reply(request, nothing())?;
                Ok(Then::End)
            }
            Kind::Launch => Err(Refused::Fault(Fault::Launched)),
            Kind::Write => self.write(request, out),
            Kind::StepOver => self.step_over(request, out),
            Kind::Act(act) => self.act(act, request, out),
        }
    }

    // What only looks is answered, or refused.
    #[tactic(auto, using(crate::proofs::EventLemmas::answering))]
    fn tell_shown(
        &self,
        shown: Result<Value, Refused<Fault>>,
        request: &Request,
        out: &mut Outbox,
    ) -> Result<Then, Refused<Fault>>
        ensures { AnsweredOr (record (still self.now) { outcome = looked }) request.now self.now self.now out.old out.new result }
    {
        match shown {
            Ok(body) => {
                out.reply(request, body)?;
                Ok(Then::Wait)
            }
            Err(Refused::Fault(fault)) => Err(Refused::Fault(fault)),
            Err(Refused::Memory) => Err(Refused::Memory),
        }
    }

    // A program that runs is answered when it stops, so this tells only that it stands.
    #[tactic(auto, using(crate::proofs::EventLemmas::answering))]
    fn pause(&self, request: &Request, out: &mut Outbox) -> Result<(), Memory>
        ensures { OnOk result (AddsReply request.now (stopped (only (codes "pause")) ∷ []) out.old out.new) }
    {
        out.reply(request, nothing())?;
        self.stopped("pause", None, out)?;
        Ok(())
    }

    // The program is at its end, which it may be taken back from.
    #[tactic(auto, using(crate::proofs::EventLemmas::answering))]
    fn terminate(&self, request: &Request, out: &mut Outbox) -> Result<(), Memory>
        ensures { OnOk result (AddsReply request.now (terminated ∷ []) out.old out.new) }
    {
        out.reply(request, nothing())?;
        tell_event("terminated", out)?;
        Ok(())
    }
}
