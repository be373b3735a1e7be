//! The adapter of a program that was launched.

ghost use Rattle.std.specs.Prelude.{◌≡◌, IfOk, IfNone, IfSome, IsErr, OnErr, OnOk, Ok};
ghost use Rattle.dap_asked.specs.Fault.{Refuses};
ghost use Rattle.mix_dap.specs.Answer.{HasTexts, LaunchTells};
ghost use Rattle.mix_dap.specs.Prelude.{launched_of, reaction};
ghost use Rattle.mix_dap.specs.Output.{none_told};
ghost use Rattle.mix_dap.specs.Reacts.{GoesOn, KeepsSaid, Leaving, Reacts, ReactsAs, ReactsPartly, RunsPartly, flow_after};

mod act;
mod answer;
mod bodies;
mod console;
mod ends;
mod legs;
mod run;
mod show;
mod stop;
mod tell;

use crate::capabilities::Client;
use crate::event::tell_event;
use crate::launch::{Opening, Texts};
use crate::loaded::session_of;
use crate::printed::Printed;
use crate::report::tell_report;
use crate::waiting::Waiting;
use dap_asked::{Fault, Kind, nothing, refuse};
use dap_points::Points;
use mix_machine::MixFault;
use mix_refused::{Memory, Refused};
use mix_session::Session;
use rpc_message::{Outbox, Request};
use std::alloc::Global;

/// Whether the client has more to ask.
#[derive(Clone, Copy)]
pub enum Flow {
    /// More requests are waited for.
    On,
    /// The request was refused and changed nothing; more are waited for.
    Refused(Fault),
    /// The client is done.
    Over,
}

/// Which way a program runs.
#[derive(Clone, Copy)]
pub(crate) enum Way {
    /// Forwards, also until the location is this one.
    Forth(Option<u16>),
    /// Forwards, so many steps: until what the first one calls has come back.
    Over(u32),
    /// Backwards.
    Back,
}

/// What comes after the answer to a request.
#[derive(Clone, Copy)]
pub(crate) enum Then {
    /// The next request is waited for.
    Wait,
    /// The program runs this way, up to where it stops.
    Run(Way),
    /// The client is done.
    End,
}

/// A program that was launched, its machine, and what its client has asked for.
pub struct Adapter {
    alloc: Global,
    session: Session,
    name: String,
    client: Client,
    opening: Opening,
    points: Points,
    printed: Printed,
    fault: Option<MixFault>,
}

impl Drop for Adapter {
    fn drop(self) {
        let Adapter {
            alloc: _,
            session: _,
            name: _,
            client: _,
            opening: _,
            points: _,
            printed: _,
            fault: _,
        } = self;
    }
}

impl Adapter {
    /// Launches a program, and answers the request that asked for it: the machine is that of the texts, with no change. No
    /// adapter exactly where one of the texts is refused.
    #[tactic(auto, using(crate::proofs::EventLemmas::answering))]
    pub fn open(
        alloc: Global,
        waiting: &Waiting,
        texts: Texts,
        request: &Request,
        out: &mut Outbox,
    ) -> Result<Option<Adapter>, Memory>
        ensures opened { IfOk result (λ o. IfSome o (λ a. launched_of texts ≡ Ok a.session)) }
        ensures refused { IfOk result (λ o. IfNone o (IsErr (launched_of texts))) }
        ensures texts { IfOk result (λ o. IfSome o (λ a. HasTexts a texts)) }
        ensures client { IfOk result (λ o. IfSome o (λ a. a.client ≡ waiting.now.client)) }
        ensures printed { IfOk result (λ o. IfSome o (λ a. a.printed ≡ none_told)) }
        ensures prints { OnOk result (LaunchTells request.now texts out.old out.new) }
    {
        let session = match session_of(alloc, &texts) {
            Ok(session) => session,
            Err(Refused::Fault(fault)) => {
                refuse(alloc, request, fault, out)?;
                tell_report(alloc, &texts, out)?;
                return Ok(None);
            }
            Err(Refused::Memory) => return Err(Memory),
        };
        out.reply(request, nothing())?;
        tell_report(alloc, &texts, out)?;
        tell_event("initialized", out)?;
        Ok(Some(Adapter {
            alloc,
            session,
            name: texts.name,
            client: waiting.client(),
            opening: texts.opening,
            points: Points::new(alloc),
            printed: Printed::none(),
            fault: None,
        }))
    }

    /// The session, for what it shows.
    pub fn session(&self) -> &Session
        ensures { result.now ≡ self.now.session }
    {
        &self.session
    }

    /// Answers a request, of which `kind_asked` says what it is about: what is done to the session, to the breakpoints and to what is told is what one row of a table says of the request, and then the
    /// program runs, if it is to, up to a stop or after 1,000,000 changes. A request that is refused changes nothing, nor does one that only looks. Out of
    /// memory, nothing is done, or a stage stands of what it asks of the session, or a part of the run.
    pub fn receive(
        &mut self,
        asked: Result<Kind, Fault>,
        request: &Request,
        out: &mut Outbox,
    ) -> Result<Flow, Memory>
        ensures program { self.new.session.program ≡ self.old.session.program }
        ensures first { self.new.session.timeline.first ≡ self.old.session.timeline.first }
        ensures keeps { KeepsSaid self.old self.new }
        ensures reacts { IfOk result (λ flow. Reacts asked request.now self.old flow self.new out.old out.new) }
        ensures begun { OnErr result (ReactsPartly asked request.now self.old self.new.session.timeline) }
    {
        match asked {
            Err(fault) => self.refuse(request, fault, out),
            Ok(kind) => self.react(kind, request, out),
        }
    }

    // A request of this kind.
    fn react(&mut self, kind: Kind, request: &Request, out: &mut Outbox) -> Result<Flow, Memory>
        ensures program { self.new.session.program ≡ self.old.session.program }
        ensures first { self.new.session.timeline.first ≡ self.old.session.timeline.first }
        ensures keeps { KeepsSaid self.old self.new }
        ensures reacts { IfOk result (λ flow. ReactsAs (reaction kind request.now self.old) request.now flow self.new out.old out.new) }
        ensures begun { OnErr result (Leaving kind request.now self.old self.new.session.timeline) }
    {
        match self.answer(kind, request, out) {
            Ok(then) => self.go_on(then, out),
            Err(Refused::Fault(fault)) => self.refuse(request, fault, out),
            Err(Refused::Memory) => Err(Memory),
        }
    }

    // What comes after an answer.
    fn go_on(&mut self, then: Then, out: &mut Outbox) -> Result<Flow, Memory>
        ensures program { self.new.session.program ≡ self.old.session.program }
        ensures first { self.new.session.timeline.first ≡ self.old.session.timeline.first }
        ensures keeps { KeepsSaid self.old self.new }
        ensures flow { IfOk result (λ flow. flow ≡ flow_after then) }
        ensures goes { OnOk result (GoesOn then self.old self.new out.old out.new) }
        ensures begun { OnErr result (RunsPartly then self.old.points self.old.session.timeline self.new.session.timeline) }
    {
        match then {
            Then::Wait => Ok(Flow::On),
            Then::Run(way) => {
                self.run(way, out)?;
                Ok(Flow::On)
            }
            Then::End => Ok(Flow::Over),
        }
    }

    // A request is refused, for this reason.
    fn refuse(&self, request: &Request, fault: Fault, out: &mut Outbox) -> Result<Flow, Memory>
        ensures flow { IfOk result (λ flow. flow ≡ Flow.Refused fault) }
        ensures told { OnOk result (Refuses request.now fault out.old out.new) }
    {
        refuse(self.alloc, request, fault, out)?;
        Ok(Flow::Refused(fault))
    }
}
