//! What moves the machine or changes it: it is read into values, done by the session, and told.

ghost use Rattle.std.specs.Prelude.{◌≡◌, ◌⊎◌, IfOk, OnErr};
ghost use Rattle.mix_refused.specs.Refused.{IfMemory};
ghost use Rattle.mix_session.specs.Prelude.{after, effect_of, effect_of_run, world_of, Begun, no_stops};
ghost use Rattle.mix_session.specs.declared.command.stops.Way.TheVariants as ways;
ghost use Rattle.mix_session.specs.declared.request.Request.TheVariants.{BackAll};
ghost use Rattle.dap_asked.specs.Deed.{effect_of_deed};
ghost use Rattle.mix_dap.specs.Console.{deed_asked};
ghost use Rattle.mix_dap.specs.Leaves.{BreaksOff, Does, unless_refused};
ghost use Rattle.dap_asked.specs.declared.deed.Deed.TheVariants as deeds;
ghost use Rattle.mix_session.specs.Over.{steps_over};
ghost use Rattle.mix_dap.specs.Reaction.{acts, beside, deed_done, restarted, stepped_over, written};
ghost use Rattle.mix_dap.specs.Runs.{most};
ghost use Rattle.mix_dap.specs.Reacts.{Answered, AnsweredOr, Keeps};
ghost use Rattle.dap_points.specs.Written.{Writes, write_asked};

use crate::adapter::legs::MOST;
use crate::adapter::{Adapter, Then, Way};
use crate::console::is_line;
use dap_asked::{Act, Deed, Fault, deed_of, nothing};
use dap_points::write_memory;
use mix_refused::{Memory, Refused};
use mix_session::{Answer, Session, Stops};
use rpc_message::{Fields, Outbox, Request};

impl Adapter {
    // What a request asks of the machine is read, done and told.
    pub(crate) fn act(
        &mut self,
        act: Act,
        request: &Request,
        out: &mut Outbox,
    ) -> Result<Then, Refused<Fault>>
        ensures keeps { Keeps self.old self.new }
        ensures program { self.new.session.program ≡ self.old.session.program }
        ensures first { self.new.session.timeline.first ≡ self.old.session.timeline.first }
        ensures begun { IfMemory result (BreaksOff (deed_asked act request.now self.old.session) self.old.session.timeline self.new.session.timeline) }
        ensures reacts { AnsweredOr (acts act request.now self.old) request.now self.old self.new out.old out.new result }
    {
        if is_line(act, request) {
            return self.console(request, out);
        }
        match deed_of(act, request, &self.session) {
            Ok(deed) => self.act_on(act, deed, request, out),
            Err(fault) => Err(Refused::Fault(fault)),
        }
    }

    fn act_on(
        &mut self,
        act: Act,
        deed: Deed,
        request: &Request,
        out: &mut Outbox,
    ) -> Result<Then, Refused<Fault>>
        ensures keeps { Keeps self.old self.new }
        ensures program { self.new.session.program ≡ self.old.session.program }
        ensures first { self.new.session.timeline.first ≡ self.old.session.timeline.first }
        ensures does { Does (effect_of_deed deed self.old.session.timeline) self.old.session.timeline self.new.session.timeline result }
        ensures reacts { AnsweredOr (deed_done act deed self.old) request.now self.old self.new out.old out.new result }
    {
        match done(&mut self.session, deed) {
            Ok(answer) => Ok(self.tell(act, answer, request, out)?),
            Err(refused) => Err(refused),
        }
    }

    // A step; or, if that calls a subroutine, the program runs until that has come back.
    pub(crate) fn step_over(
        &mut self,
        request: &Request,
        out: &mut Outbox,
    ) -> Result<Then, Refused<Fault>>
        ensures keeps { Keeps self.old self.new }
        ensures program { self.new.session.program ≡ self.old.session.program }
        ensures first { self.new.session.timeline.first ≡ self.old.session.timeline.first }
        ensures begun { IfMemory result ((self.new.session.timeline ≡ self.old.session.timeline) ⊎ Begun (effect_of_deed deeds.Step self.old.session.timeline) self.new.session.timeline) }
        ensures reacts { AnsweredOr (stepped_over (steps_over (world_of self.old.session.timeline) most) self.old) request.now self.old self.new out.old out.new result }
    {
        let steps = self.session.steps_over(self.alloc, MOST)?;
        if steps == 1 {
            return self.act_on(Act::Step, Deed::Step, request, out);
        }
        self.fault = None;
        out.reply(request, nothing())?;
        Ok(Then::Run(Way::Over(steps)))
    }

    // The program is at its beginning again, with all changes taken back.
    pub(crate) fn restart(&mut self, request: &Request, out: &mut Outbox) -> Result<Then, Memory>
        ensures keeps { Keeps self.old self.new }
        ensures program { self.new.session.program ≡ self.old.session.program }
        ensures first { self.new.session.timeline.first ≡ self.old.session.timeline.first }
        ensures begun { OnErr result (Begun (effect_of self.old.session.timeline BackAll) self.new.session.timeline) }
        ensures reacts { IfOk result (λ then. Answered (restarted (beside self.old) (after (effect_of self.old.session.timeline BackAll))) request.now self.new then out.old out.new) }
    {
        match self.session.execute(mix_session::Request::BackAll) {
            Ok(_) => self.tell_beginning(request, out),
            Err(Memory) => Err(Memory),
        }
    }

    // Bytes are written into the memory.
    #[tactic(auto, using(crate::proofs::EventLemmas::answering, dap_points::proofs::WrittenLemmas::some_written))]
    pub(crate) fn write(
        &mut self,
        request: &Request,
        out: &mut Outbox,
    ) -> Result<Then, Refused<Fault>>
        ensures keeps { Keeps self.old self.new }
        ensures program { self.new.session.program ≡ self.old.session.program }
        ensures first { self.new.session.timeline.first ≡ self.old.session.timeline.first }
        ensures writes { Writes (write_asked self.old.session request.now) self.old.session.timeline self.new.session.timeline result }
        ensures reacts { AnsweredOr (written (write_asked self.old.session request.now) self.old) request.now self.old self.new out.old out.new result }
    {
        let count = write_memory(self.alloc, &mut self.session, request)?;
        let mut body = Fields::new(self.alloc);
        body.number("bytesWritten", count as u64)?;
        out.reply(request, body.done())?;
        self.invalidated(out)?;
        Ok(Then::Wait)
    }
}

/// What is asked of the machine is done by the session: its answer, unless that is a refusal.
pub(crate) fn done(session: &mut Session, deed: Deed) -> Result<Answer, Refused<Fault>>
    ensures program { session.new.program ≡ session.old.program }
    ensures first { session.new.timeline.first ≡ session.old.timeline.first }
    ensures does { Does (effect_of_deed deed session.old.timeline) session.old.timeline session.new.timeline result }
    ensures answer { IfOk result (λ answer. answer ≡ (effect_of_deed deed session.old.timeline).answer) }
{
    match deed {
        Deed::Nothing => Ok(Answer::Nothing),
        Deed::Step => step(session),
        Deed::Do(request) => execute(session, request),
    }
}

// A step, which is done again where it stands ahead.
#[tactic(auto, unfolding(mix_session::specs::Command::effect_of_run))]
fn step(session: &mut Session) -> Result<Answer, Refused<Fault>>
    ensures program { session.new.program ≡ session.old.program }
    ensures first { session.new.timeline.first ≡ session.old.timeline.first }
    ensures does { Does (effect_of_run ways.Again no_stops session.old.timeline 1) session.old.timeline session.new.timeline result }
    ensures answer { IfOk result (λ answer. answer ≡ (effect_of_run ways.Again no_stops session.old.timeline 1).answer) }
{
    let stops = Stops {
        breaks: false,
        cells: &[],
        watched: &[],
        location: None,
    };
    match session.run(mix_session::Way::Again, 1, &stops) {
        Ok((count, end)) => Ok(Answer::Ran(count, end)),
        Err(Memory) => Err(Refused::Memory),
    }
}

fn execute(session: &mut Session, request: mix_session::Request) -> Result<Answer, Refused<Fault>>
    ensures program { session.new.program ≡ session.old.program }
    ensures first { session.new.timeline.first ≡ session.old.timeline.first }
    ensures does { Does (effect_of session.old.timeline request) session.old.timeline session.new.timeline result }
    ensures answer { IfOk result (λ answer. answer ≡ (effect_of session.old.timeline request).answer) }
{
    match session.execute(request) {
        Ok(answer) => unless_refused(answer),
        Err(Memory) => Err(Refused::Memory),
    }
}

// An answer, unless it is a refusal.
fn unless_refused(answer: Answer) -> Result<Answer, Refused<Fault>>
    ensures { result ≡ unless_refused answer }
{
    let given = answer;
    match given.refusal() {
        Some(refusal) => Err(Refused::Fault(Fault::Session(refusal))),
        None => Ok(answer),
    }
}
