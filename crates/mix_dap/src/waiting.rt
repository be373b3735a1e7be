//! Before a program is launched.

ghost use Rattle.std.specs.Prelude.{◌≡◌, [], IfOk, OnOk};
ghost use Rattle.mix_dap.specs.Before.{LaunchShows, AskedShows, client_after};
ghost use Rattle.mix_dap.specs.Capabilities.{unknown_client};
ghost use Rattle.mix_dap.specs.Replies.{AddsEither};

use crate::capabilities::{Client, capabilities};
use crate::event::tell_event;
use crate::launch::{Library, Texts, texts_of};
use dap_asked::{Fault, Given, Kind, nothing, refuse};
use dap_views::given_view;
use mix_refused::{Memory, Refused};
use rpc_message::{Outbox, Request};
use std::alloc::Global;

/// An adapter without a launched program.
#[derive(Clone, Copy)]
pub struct Waiting {
    alloc: Global,
    client: Client,
}

/// The outcome of a request before a program is launched.
#[derive(Drop)]
pub enum Asked {
    /// It was answered, and the next one is waited for.
    Answered,
    /// The client is done.
    Over,
    /// These texts are to be launched, and the request waits for its answer.
    Launch(Texts),
}

impl Waiting {
    /// An adapter that has had no request yet.
    pub fn new(alloc: Global) -> Waiting
        ensures { result.client ≡ unknown_client }
    {
        Waiting {
            alloc,
            client: Client::unknown(),
        }
    }

    /// Answers a request, of which `kind_before` says what it is about, but for one to launch a program, whose texts are read.
    #[tactic(auto, using(crate::proofs::EventLemmas::answering))]
    pub fn receive<L: Library>(
        &mut self,
        library: &L,
        kind: Result<Kind, Fault>,
        request: &Request,
        out: &mut Outbox,
    ) -> Result<Asked, Memory>
        ensures client { OnOk result (self.new.client ≡ client_after kind request.now self.old.client) }
        ensures shows { IfOk result (λ asked. AskedShows (L.knows library.now) kind asked request.now out.old out.new) }
    {
        let kind = match kind {
            Ok(kind) => kind,
            Err(fault) => {
                refuse(self.alloc, request, fault, out)?;
                return Ok(Asked::Answered);
            }
        };
        match kind {
            Kind::Initialize => {
                self.client = Client::of(request);
                out.reply(request, capabilities(self.alloc)?)?;
                Ok(Asked::Answered)
            }
            Kind::Launch => self.launch(library, request, out),
            Kind::Given(given) => {
                self.tell_given(given, request, out)?;
                Ok(Asked::Answered)
            }
            Kind::Disconnect => {
                out.reply(request, nothing())?;
                Ok(Asked::Over)
            }
            Kind::Terminate => {
                out.reply(request, nothing())?;
                tell_event("terminated", out)?;
                Ok(Asked::Answered)
            }
            Kind::Look(_)
            | Kind::Points(_)
            | Kind::Pause
            | Kind::Restart
            | Kind::Cancel
            | Kind::Write
            | Kind::StepOver
            | Kind::Act(_) => {
                refuse(self.alloc, request, Fault::NotLaunched, out)?;
                Ok(Asked::Answered)
            }
        }
    }

    #[tactic(auto, using(crate::proofs::EventLemmas::answering))]
    fn launch<L: Library>(
        &self,
        library: &L,
        request: &Request,
        out: &mut Outbox,
    ) -> Result<Asked, Memory>
        ensures { IfOk result (λ asked. LaunchShows (L.knows library.now) asked request.now out.old out.new) }
    {
        match texts_of(self.alloc, library, request) {
            Ok(texts) => Ok(Asked::Launch(texts)),
            Err(Refused::Fault(fault)) => {
                refuse(self.alloc, request, fault, out)?;
                Ok(Asked::Answered)
            }
            Err(Refused::Memory) => Err(Memory),
        }
    }

    #[tactic(auto, using(crate::proofs::EventLemmas::answering))]
    fn tell_given(&self, given: Given, request: &Request, out: &mut Outbox) -> Result<(), Memory>
        ensures { OnOk result (AddsEither request.now [] out.old out.new) }
    {
        match given_view(self.alloc, given, request) {
            Ok(body) => out.reply(request, body),
            Err(Refused::Fault(fault)) => refuse(self.alloc, request, fault, out),
            Err(Refused::Memory) => Err(Memory),
        }
    }

    pub(crate) fn client(&self) -> Client
        ensures { result ≡ self.now.client }
    {
        self.client
    }
}
