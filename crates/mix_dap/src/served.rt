//! What answers the client of a dialogue: before a program is launched, and after that.
#![tactic(auto, using(crate::proofs::EventLemmas::sending))]

ghost use Rattle.std.specs.Prelude.{◌≡◌, [], IfNone, IfOk, IfSome, IsErr, OnOk};
ghost use Rattle.rpc_message.specs.Message.{waits};
ghost use Rattle.mix_dap.specs.Prelude.{LaunchTells, launched_of};
ghost use Rattle.mix_dap.specs.Dialogue.{BeginsAs, StageServes, debugs, waiting};
ghost use Rattle.mix_dap.specs.Stage.{stage_of};

use crate::adapter::{Adapter, Flow};
use crate::launch::{Library, Texts};
use crate::waiting::{Asked, Waiting};
use dap_asked::{kind_asked, kind_before};
use mix_refused::Memory;
use rpc_message::{Outbox, Request};
use rpc_stream::{Serves, Turn};
use std::alloc::Global;
use std::marker::Model;
use std::mem::replace;

/// What a dialogue holds.
#[derive(Drop)]
pub(crate) enum Holds {
    /// A launch is waited for.
    Waiting(Waiting),
    /// A program is debugged.
    Program(Adapter),
    /// The client is done.
    Nothing,
}

/// What a dialogue holds, and where the texts are found that a launch names.
pub(crate) struct Served<'l, L: Library> {
    alloc: Global,
    library: &'l L,
    holds: Holds,
}

impl<L: Library> Drop for Served<'_, L> {
    fn drop(self) {
        let Served {
            alloc: _,
            library: _,
            holds: _,
        } = self;
    }
}

impl<'l, L: Library> Model for Served<'l, L> {
    ghost use Rattle.mix_dap.specs.Dialogue.{Stage};
    ghost use Rattle.mix_dap.specs.Stage.{stage_of};

    ghost Value = { Stage };

    ghost view = { λ s. stage_of s.holds };
}

impl<'l, L: Library> Served<'l, L> {
    pub(crate) fn of(alloc: Global, library: &'l L, holds: Holds) -> Served<'l, L>
        ensures { result ≡ stage_of holds }
    {
        Served {
            alloc,
            library,
            holds,
        }
    }

    pub(crate) fn into_holds(self) -> Holds
        ensures { stage_of result ≡ self.entry }
    {
        let Served {
            alloc: _,
            library: _,
            holds,
        } = self;
        holds
    }
}

impl<L: Library> Serves for Served<'_, L> {
    ghost serves = { StageServes };

    fn serve(&mut self, request: &Request, outbox: &mut Outbox) -> Result<Turn, Memory> {
        match replace(&mut self.holds, Holds::Nothing) {
            Holds::Waiting(before) => {
                let (turn, holds) = ask_before(self.alloc, self.library, before, request, outbox)?;
                self.holds = holds;
                Ok(turn)
            }
            Holds::Program(adapter) => {
                let (turn, holds) = ask_program(adapter, request, outbox)?;
                self.holds = holds;
                Ok(turn)
            }
            Holds::Nothing => Ok(Turn::Over),
        }
    }
}

// A request before a program is launched, or the one to launch it.
fn ask_before<L: Library>(
    alloc: Global,
    library: &L,
    before: Waiting,
    request: &Request,
    outbox: &mut Outbox,
) -> Result<(Turn, Holds), Memory>
    requires { waits outbox.old ≡ [] }
    ensures { IfOk result (λ r. StageServes (waiting before.client, outbox.old.seq) request.now (waits outbox.new) r.0 (stage_of r.1, outbox.new.seq)) }
{
    let mut before = before;
    let kind = kind_before(request);
    match before.receive(library, kind, request, outbox)? {
        Asked::Answered => Ok((Turn::On, Holds::Waiting(before))),
        Asked::Over => Ok((Turn::Over, Holds::Nothing)),
        Asked::Launch(texts) => match opened(alloc, &before, texts, request, outbox)? {
            None => Ok((Turn::On, Holds::Waiting(before))),
            Some(adapter) => Ok((Turn::On, Holds::Program(adapter))),
        },
    }
}

// The program of a launch, with what a dialogue has to know of it.
fn opened(
    alloc: Global,
    before: &Waiting,
    texts: Texts,
    request: &Request,
    outbox: &mut Outbox,
) -> Result<Option<Adapter>, Memory>
    ensures begins { IfOk result (λ o. IfSome o (λ a. BeginsAs a texts before.now.client)) }
    ensures refused { IfOk result (λ o. IfNone o (IsErr (launched_of texts))) }
    ensures prints { OnOk result (LaunchTells request.now texts outbox.old outbox.new) }
{
    Adapter::open(alloc, before, texts, request, outbox)
}

// A request of a launched program.
fn ask_program(
    adapter: Adapter,
    request: &Request,
    outbox: &mut Outbox,
) -> Result<(Turn, Holds), Memory>
    requires { waits outbox.old ≡ [] }
    ensures { IfOk result (λ r. StageServes (debugs adapter, outbox.old.seq) request.now (waits outbox.new) r.0 (stage_of r.1, outbox.new.seq)) }
{
    let mut adapter = adapter;
    match adapter.receive(kind_asked(request), request, outbox)? {
        Flow::On | Flow::Refused(_) => Ok((Turn::On, Holds::Program(adapter))),
        Flow::Over => Ok((Turn::Over, Holds::Nothing)),
    }
}
