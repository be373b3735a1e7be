//! What is only said of a line that a person types: a view of the session, a part of the machine, or that the program has halted.

ghost use Rattle.std.specs.Prelude.{◌≡◌, ◌∷◌, [], Some, IfOk, codes, is_some, option_map};
ghost use Rattle.mix_lines.specs.Lines.{words};
ghost use Rattle.mix_machine.specs.Do.{is_halt_next};
ghost use Rattle.mix_session.specs.Counts.{is_step};
ghost use Rattle.mix_person.specs.Aside.{goes_on, is_aside, is_halt, is_halted, is_shown, part_in};
ghost use Rattle.mix_person.specs.Person.{is_one_of};

use crate::names::is_register;
use mix_lines::{Words, split_line};
use mix_machine::{Change, World};
use mix_refused::Memory;
use mix_session::{Altered, Answer, Held, Session, Topic};
use mix_views::view_of;
use std::alloc::Global;

const HALTED: &[u8] = b"The program has halted: back all begins anew, step 1 goes on behind HLT.\n";

// Whether a change is a step of HLT, from this machine.
fn is_halt(change: Change, before: &World) -> bool
    ensures { result ≡ is_halt (Some change) before.now }
{
    matches!(change, Change::Step) && before.next_is_halt()
}

// Whether the last change that is done is a step of HLT.
fn is_halted(alloc: Global, session: &Session) -> Result<bool, Memory>
    ensures { IfOk result (λ halted. halted ≡ is_halted session.now.timeline) }
{
    let done = session.changes().len();
    let Some(change) = session.change_at(done) else {
        return Ok(false);
    };
    let before = session.world_at(alloc, done.saturating_sub(1))?;
    Ok(is_halt(change, &before))
}

fn is_one_step(command: &[u8]) -> bool
    ensures { result ≡ is_one_of (codes "step" ∷ codes "trace" ∷ []) command.now }
{
    command.eq_ignore_ascii_case(b"step") || command.eq_ignore_ascii_case(b"trace")
}

fn goes_on_by(command: &[u8], words: &mut Words) -> bool
    ensures { result ≡ goes_on (command.now ∷ words.old) }
{
    match words.next() {
        None => is_one_step(command),
        Some(count) => {
            command.eq_ignore_ascii_case(b"run") && count.eq_ignore_ascii_case(b"1000000")
        }
    }
}

fn goes_on(typed: &[u8]) -> bool
    ensures { result ≡ goes_on (words typed.now) }
{
    let mut words = Words::of(typed);
    match words.next() {
        None => false,
        Some(command) => goes_on_by(command, &mut words),
    }
}

fn is_shown(name: &[u8]) -> bool
    ensures { result ≡ is_shown name.now }
{
    is_register(name)
        || name.eq_ignore_ascii_case(b"over")
        || name.eq_ignore_ascii_case(b"cmp")
        || name.eq_ignore_ascii_case(b"loc")
}

fn part_after<'a>(command: &[u8], words: &mut Words<'a>) -> Option<&'a [u8]>
    ensures { option_map (λ n. n.now) result ≡ part_in (command.now ∷ words.old) }
{
    match words.next() {
        None => None,
        Some(name) => {
            if words.is_end() && command.eq_ignore_ascii_case(b"show") && is_shown(name) {
                Some(name)
            } else {
                None
            }
        }
    }
}

// The part of the machine that a line shows.
fn part_in(typed: &[u8]) -> Option<&[u8]>
    ensures { option_map (λ n. n.now) result ≡ part_in (words typed.now) }
{
    let mut words = Words::of(typed);
    match words.next() {
        None => None,
        Some(command) => part_after(command, &mut words),
    }
}

// A part of the machine: a register is its line of `show values`; the toggle, the indicator or the location is as `show regs` has it.
fn part_text(alloc: Global, session: &Session, name: &[u8]) -> Result<Vec<u8>, Memory> {
    if !is_register(name) {
        let (shown, part) = if name.eq_ignore_ascii_case(b"over") {
            ("over", Altered::Over)
        } else if name.eq_ignore_ascii_case(b"cmp") {
            ("cmp", Altered::Cmp)
        } else {
            ("loc", Altered::Loc)
        };
        let held = Held(session.world(), part);
        let line = format!(in alloc; "{shown} {held}\n")?;
        return Ok(line.into_bytes());
    }
    let all = session.text(&Answer::Shows(Topic::Values))?;
    let mut text = Vec::new(alloc);
    let mut rest = all.as_slice();
    while !rest.is_empty() {
        let (line, after) = split_line(rest);
        if Words::of(line)
            .next()
            .is_some_and(|word| word.eq_ignore_ascii_case(name))
        {
            text.extend_from_slice(line)?;
            text.push(b'\n')?;
        }
        rest = after;
    }
    Ok(text)
}

/// Whether a line shows a part of the machine; no line of a script does.
pub fn shows_part(typed: &[u8]) -> bool
    ensures { result ≡ is_some (part_in (words typed.now)) }
{
    part_in(typed).is_some()
}

/// The part of the machine that a line shows.
pub fn shown_part(alloc: Global, session: &Session, typed: &[u8]) -> Result<Option<Vec<u8>>, Memory>
    ensures { IfOk result (λ said. is_some said ≡ is_some (part_in (words typed.now))) }
{
    match part_in(typed) {
        None => Ok(None),
        Some(name) => {
            let text = part_text(alloc, session, name)?;
            Ok(Some(text))
        }
    }
}

/// What is only said of the line of a script that a person's line stands for, if that is all: a view of the session or a part of the machine that it
/// shows, or that the program has halted, if it asks for steps without a number.
#[tactic(auto, unfolding(crate::specs::Aside::is_aside))]
pub fn only_said(alloc: Global, session: &Session, typed: &[u8]) -> Result<Option<Vec<u8>>, Memory>
    ensures { IfOk result (λ said. is_some said ≡ is_aside session.now typed.now) }
{
    if goes_on(typed) && is_halted(alloc, session)? {
        let text = Vec::from_slice(alloc, HALTED)?;
        return Ok(Some(text));
    }
    match view_of(alloc, session, typed)? {
        None => shown_part(alloc, session, typed),
        seen => Ok(seen),
    }
}
