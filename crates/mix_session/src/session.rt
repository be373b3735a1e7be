//! A session: a program, its machine, whose changes can be taken back, and the requests and commands over it.

ghost use Rattle.std.specs.Prelude.{◌≡◌, ◌<◌, ◌-◌, ◌^◌, Err, IfErr, IfOk, IfSome, length};
ghost use Rattle.std.specs.Io.KnownBytes.{Appends, Keeps};
ghost use Rattle.mix_session.specs.Prelude.{world_of, after, effect_of, effect_of_run, reply_of, Begun, HasEffect, opened, request_in, effect_in};
ghost use Rattle.mix_word.specs.Word.{plus};
ghost use Rattle.mix_session.specs.Answer.{refusal_of, told_of, text_of};
ghost use Rattle.mix_session.specs.BrokenOff.{asks_first, watches, BrokenOff};
ghost use Rattle.mix_refused.specs.Refused.{IsFault};
ghost use Rattle.mix_stream.specs.Stream.{AppendsFront, CountsFailure};

use crate::answer::{Answer, answer_text};
use crate::command::execute;
use crate::command::runs::run_on;
use crate::command::stops::{Stops, Way, marks_of, way_on};
use crate::conflicts::known_of;
use crate::fault::Refusal;
use crate::reply::{End, Told};
use crate::request::{Request, read_request};
use crate::timeline::world_of;
use mix_machine::{Change, Sign, Units, Word, World};
use mix_stream::{Failed, Out, write_all};
use mixal_asm::Program;
use std::alloc::Global;
use std::marker::Model;
use undo_core::{Changes, Journal, Memory, Refused};

/// An assembled program, the machine that it was loaded into, and the changes of that machine.
pub struct Session {
    alloc: Global,
    program: Program,
    journal: Journal<World>,
}

// Written out, so that the proof of what drops a session has one call to read, and not those of its fields.
impl Drop for Session {
    fn drop(self) {
        let Session {
            alloc: _,
            program: _,
            journal: _,
        } = self;
    }
}

impl Model for Session {
    ghost use Rattle.mix_session.specs.Session.{SessionState};

    ghost Value = { SessionState };

    ghost view = { λ s. record { program = s.program; timeline = s.journal } };
}

impl Session {
    /// The machine that a program loads, with the units of a deck (1.3.1), no change done and none ahead. Only out of memory refuses it.
    #[tactic(auto, unfolding(crate::specs::Session::opened))]
    pub fn open(alloc: Global, program: Program, units: Units) -> Result<Session, Memory>
        ensures { IfOk result (λ s. s ≡ opened program units) }
    {
        let world = World::load(alloc, program.words(), program.start(), units)?;
        Ok(Session {
            alloc,
            program,
            journal: Journal::new(alloc, world),
        })
    }

    /// The program that was loaded. It takes no memory.
    pub fn program(&self) -> &Program
        ensures { result.now ≡ self.now.program }
    {
        &self.program
    }

    /// The machine as it is now. It takes no memory.
    pub fn world(&self) -> &World
        ensures { result.now ≡ world_of self.now.timeline }
    {
        world_of(&self.journal)
    }

    /// The changes that are done, without those that were taken back. It takes no memory.
    pub fn changes(&self) -> Changes<'_, Change>
        ensures { result ≡ self.now.timeline.changes }
    {
        self.journal.changes()
    }

    /// How many changes stand ahead. It takes no memory.
    pub fn ahead(&self) -> usize
        ensures { result ≡ length self.now.timeline.ahead }
    {
        self.journal.ahead()
    }

    /// What a line of a script asks for, or what is wrong with its words. Names are those of the program, and the asterisk stands for the
    /// location. It takes no memory.
    pub fn read(&self, line: &[u8]) -> Result<Request, Refusal>
        ensures { result ≡ request_in self.now line.now }
    {
        read_request(line, &self.program, self.here())
    }

    // The location, for which the asterisk stands.
    pub(crate) fn here(&self) -> Word
        ensures { result ≡ plus (world_of self.now.timeline).loc }
    {
        Word::of(Sign::Plus, u32::from(self.world().loc()))
    }

    /// Does what is asked for, whoever asks it: a number that no line may have is taken as it is. A refusal changes nothing. Out of memory:
    /// of steps those done stand, of `forth` the changes done again, of any other request nothing.
    /// What is done whole or refused is never out of memory; only what waits for a conflict may be,
    /// before anything is done.
    #[tactic(auto, using(crate::proofs::RefusalLemmas::refused_spares))]
    pub fn execute(&mut self, request: Request) -> Result<Answer, Memory>
        ensures program { self.new.program ≡ self.old.program }
        ensures effect { HasEffect (effect_of self.old.timeline request) self.old.timeline self.new.timeline result }
        ensures memory { IfErr result (λ _.
            BrokenOff (asks_first request) (effect_of self.old.timeline request) self.old.timeline self.new.timeline) }
        ensures refused { IfOk result (λ answer. IfSome (refusal_of answer) (λ _. self.new.timeline ≡ self.old.timeline)) }
    {
        execute(self.alloc, &mut self.journal, request)
    }

    /// Makes changes, at most so many, until one of the ends holds: how many it made, and the end.
    /// Out of memory: of steps those done stand, of changes taken back none. What is over is never
    /// out of memory; only a run that watches something may be, before anything is done.
    pub fn run(&mut self, way: Way, most: u32, stops: &Stops<'_>) -> Result<(u32, End), Memory>
        ensures program { self.new.program ≡ self.old.program }
        ensures first { self.new.timeline.first ≡ self.old.timeline.first }
        ensures effect { let effect = effect_of_run way stops.now self.old.timeline most in
            IfOk result (λ ran. (self.new.timeline ≡ after effect) × (effect.answer ≡ Answer.Ran ran.0 ran.1)) }
        ensures begun { IfErr result (λ _. Begun (effect_of_run way stops.now self.old.timeline most) self.new.timeline) }
        ensures memory { IfErr result (λ _.
            BrokenOff (watches stops.now) (effect_of_run way stops.now self.old.timeline most) self.old.timeline self.new.timeline) }
        ensures back { way ≡ Way.Back → IfErr result (λ _. self.new.timeline ≡ self.old.timeline) }
        ensures limit { IfOk result (λ ran. ran.1 ≡ End.Limit → ran.0 ≡ most) }
    {
        let mut marks = marks_of(self.alloc, stops.watched, self.world())?;
        let mut known = known_of(self.alloc, &self.journal, stops.watched)?;
        let onward = way_on(way, &self.journal);
        let (made, end) = run_on(
            &mut self.journal,
            onward,
            most as usize,
            stops,
            marks.as_mut_slice(),
            &mut known,
        )?;
        Ok((made as u32, end))
    }

    /// The text of an answer, read from the program and the machine as it is now: bytes, since a line of a source may have any. Only out of memory
    /// refuses it.
    pub fn text(&self, answer: &Answer) -> Result<Vec<u8>, Memory>
        ensures { IfOk result (λ text. text.items ≡ text_of answer.now self.now.program self.now.timeline) }
    {
        answer_text(self.alloc, *answer, &self.program, &self.journal)
    }

    // What a line asks for is done.
    pub(crate) fn execute_line(&mut self, line: &[u8]) -> Result<Answer, Memory>
        ensures program { self.new.program ≡ self.old.program }
        ensures effect { HasEffect (effect_in self.old line.now) self.old.timeline self.new.timeline result }
        ensures refused { IfOk result (λ answer. IfSome (refusal_of answer) (λ _. self.new.timeline ≡ self.old.timeline)) }
    {
        match self.read(line) {
            Ok(request) => self.execute(request),
            Err(refusal) => Ok(Answer::Refused(refusal)),
        }
    }

    /// Executes one line of a script and writes its reply: `Accepted`, or `Refused` where the line or the machine refuses it or a step
    /// meets a fault. Out of memory, nothing is written: of `step` and `run` the steps done stand, of `forth` the changes done again,
    /// of another command all or nothing. Where a write fails, the command is done, and a beginning of its reply is written.
    pub fn command<W: Out>(&mut self, line: &[u8], out: &mut W) -> Result<Told, Refused<Failed>>
        requires { W.failed out.old < 2 ^ 64 - 1 }
        ensures program { self.new.program ≡ self.old.program }
        ensures first { self.new.timeline.first ≡ self.old.timeline.first }
        ensures effect { let effect = effect_in self.old line.now in
            IfOk result (λ told. (self.new ≡ record self.old { timeline = after effect }) × (told ≡ told_of effect.answer)
            × Appends (W.told out.old) (W.told out.new) (reply_of self.old.program effect)) }
        ensures begun { AppendsFront (W.told out.old) (W.told out.new) (reply_of self.old.program (effect_in self.old line.now)) }
        ensures memory { result ≡ Err Refused.Memory → Keeps (W.told out.old) (W.told out.new)
            × Begun (effect_in self.old line.now) self.new.timeline }
        ensures done { IsFault result → self.new.timeline ≡ after (effect_in self.old line.now) }
        ensures write { CountsFailure (IsFault result) (W.failed out.old) (W.failed out.new) }
    {
        let answer = self.execute_line(line)?;
        let text = self.text(&answer)?;
        match write_all(out, text.as_slice()) {
            Ok(()) => Ok(answer.told()),
            Err(failed) => Err(Refused::Fault(failed)),
        }
    }

    /// The journal, for what it keeps.
    pub(crate) fn journal(&self) -> &Journal<World>
        ensures { result.now ≡ self.now.timeline }
    {
        &self.journal
    }
}
