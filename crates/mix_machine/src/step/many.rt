//! Steps one after the other, as long as none needs a look at the machine first.
ghost use Rattle.std.specs.Prelude.{◌≡◌, ◌<◌, ◌≤◌, List, [], true, false, option_map};
ghost use Rattle.mix_machine.specs.Prelude.{cell_of, plan_of, answer_of, ends_if, is_plain_next, Carried};
ghost use Rattle.mix_machine.specs.law.Steps.{Stepped};
ghost use Rattle.mix_machine.specs.declared.old.Old.{Old};

use crate::fault::MixFault;
use crate::many::is_ended;
use crate::old::{Change, Old};
use crate::step::ending::Forgets;
use crate::step::told::{answer_of, told};
use crate::watch::Watch;
use crate::world::World;
use mix_word::{Place, Word};
use std::alloc::Global;
use undo_core::{Kept, Refused};

impl World {
    /// Does a step, or reports its first fault; out of memory is the answer to none that has a fault.
    #[inline(always)]
    pub(crate) fn step(&mut self, kept: &mut Kept<Old>) -> Result<(), Refused<MixFault>>
        ensures { Carried (plan_of self.old Change.Step) self.old self.new kept.old.items kept.new.items result }
    {
        self.steps(1, None, kept).1
    }

    /// Does a step, and the next one as long as that needs no look at the machine first and none
    /// stops them, so many at most. It returns how many were done, and why not one more, if that
    /// was tried and refused.
    #[inline(always)]
    pub(crate) fn steps(
        &mut self,
        most: usize,
        watch: Option<&Watch>,
        kept: &mut Kept<Old>,
    ) -> (usize, Result<(), Refused<MixFault>>)
        requires { 0 < most }
        ensures { Stepped (ends_if (option_map (λ w. w.now) watch.entry)) most self.old self.new kept.old.items kept.new.items result.0 result.1 }
    {
        let (done, answer) = self.steps_told(most, watch, kept);
        (done, answer_of(answer))
    }

    /// Does a step that needs no look at the machine first, and the next one as long as that needs
    /// none, so many at most, and keeps nothing of what they overwrite. It returns how many were
    /// done, and why not one more, if that was tried and refused.
    pub fn run(&mut self, alloc: Global, most: usize) -> (usize, Result<(), Refused<MixFault>>)
        requires some { 0 < most }
        requires plain { is_plain_next self.old ≡ true }
        ensures within { result.0 ≤ most }
        ensures steps { (values : List Old) × Stepped (λ _. false) most self.old self.new [] values result.0 result.1 }
    {
        let mut end = Forgets {
            spare: Kept::new(alloc),
        };
        let (done, answer) = self.run_told(most, &mut end);
        (done, answer_of(answer))
    }

    // The same, and a byte that tells the answer.
    #[inline(never)]
    fn run_told(&mut self, most: usize, end: &mut Forgets) -> (usize, u8)
        requires some { 0 < most }
        requires plain { is_plain_next self.old ≡ true }
        ensures { (values : List Old) × Stepped (λ _. false) most self.old self.new [] values result.0 (answer_of result.1) }
    {
        let mut done = 0;
        while done < most {
            // (the proof knows the ranges of the machine where a field of it is named)
            let _ = &self.loc;
            match self.plain_word() {
                None => return (done, told(Ok(()))),
                Some(word) => {
                    let answer = self.step_of_word(word, end);
                    if answer != 0 {
                        return (done, answer);
                    }
                    done += 1;
                }
            }
        }
        (done, told(Ok(())))
    }

    // The same, and a byte that tells the answer.
    // (one function, in which the operations that programs do most are inlined, each being called there alone. With them it is too long for the
    // compiler to inline it where steps are done: it would drop the attribute from one of the functions in it, and call that with more arguments)
    #[inline(never)]
    fn steps_told(
        &mut self,
        most: usize,
        watch: Option<&Watch>,
        kept: &mut Kept<Old>,
    ) -> (usize, u8)
        requires { 0 < most }
        ensures { Stepped (ends_if (option_map (λ w. w.now) watch.entry)) most self.old self.new kept.old.items kept.new.items result.0 (answer_of result.1) }
    {
        match Place::of(self.loc) {
            None => (0, told(Err(Refused::Fault(MixFault::NoCellAtLocation)))),
            Some(place) => {
                let word = self.cell(place);
                self.steps_from(word, most, watch, kept)
            }
        }
    }

    // The same from a cell on, which holds this word.
    #[inline(always)]
    fn steps_from(
        &mut self,
        first: Word,
        most: usize,
        watch: Option<&Watch>,
        kept: &mut Kept<Old>,
    ) -> (usize, u8)
        requires some { 0 < most }
        requires cell { self.old.loc < 4000 }
        requires word { first ≡ cell_of self.old self.old.loc }
        ensures { Stepped (ends_if (option_map (λ w. w.now) watch.entry)) most self.old self.new kept.old.items kept.new.items result.0 (answer_of result.1) }
    {
        let mut word = first;
        let mut done = 0;
        while done < most {
            // (the proof knows the ranges of the machine where a field of it is named)
            let _ = &self.loc;
            let answer = self.step_of_word(word, kept);
            if answer != 0 {
                return (done, answer);
            }
            done += 1;
            if is_ended(watch, self) {
                return (done, told(Ok(())));
            }
            match self.plain_word() {
                Some(next) => word = next,
                None => return (done, told(Ok(()))),
            }
        }
        (done, told(Ok(())))
    }
}
