//! What is answered of a run, and what is told of it: a step that conflicts with a transfer under way
//! (1.3.1, "Input-output operators"), and where the run came to.

ghost use Rattle.std.specs.Prelude.{◌≡◌, false};
ghost use Rattle.mix_tool.specs.Ending.{answer_of, status_of_end, status_of_print};

use crate::asked::subject_of;
use crate::ending::{status, tell};
use mix_cli::FAILED;
use mix_plan::RunPlan;
use mix_run::{
    Conflict, DONE, NOT_DONE, PrintAnswer, Printed, RanTo, RunEnd, SOURCE_REFUSED, Shows, ToolFault,
};
use mix_session::conflict_text;
use mix_stream::Out;
use mix_word::Location;
use std::alloc::{AllocError, Global};
use std::fmt;

// The name of a source, with the number of a line if there is one.
fn place(alloc: Global, name: &str, line: Option<u32>) -> Result<String, AllocError> {
    match line {
        Some(line) => format!(in alloc; "{name}:{line}"),
        None => String::from_str(alloc, name),
    }
}

// Where a run came to, and why it ends there: `prog.mixal:2: steps used up at 0001 clock 1`.
fn stop_line<T: fmt::Display + Drop>(
    alloc: Global,
    name: &str,
    ran: &RanTo,
    why: T,
) -> Result<String, AllocError> {
    let place = place(alloc, name, ran.line)?;
    let (loc, clock) = (Location(ran.loc), ran.clock);
    format!(in alloc; "{place}: {why} at {loc} clock {clock}\n")
}

// A conflict: `fill.mixal:74: warning: at 1047 clock 424 cell 2001 is altered while unit 18 prints it until 726`.
fn conflict_line(
    alloc: Global,
    place: Result<String, AllocError>,
    severity: &str,
    at: (u16, u64),
    conflict: Conflict,
) -> Result<String, AllocError> {
    let place = place?;
    let (loc, clock) = (Location(at.0), at.1);
    let text = conflict_text(alloc, conflict)?;
    format!(in alloc; "{place}: {severity}: at {loc} clock {clock} {text}\n")
}

// How many steps conflict: `fill.mixal: warning: 51 steps conflict with a transfer under way`.
fn count_line(alloc: Global, name: &str, count: u64) -> Result<String, AllocError> {
    if count == 1 {
        return format!(in alloc; "{name}: warning: 1 step conflicts with a transfer under way\n");
    }
    format!(in alloc; "{name}: warning: {count} steps conflict with a transfer under way\n")
}

// Tells the first conflict of a run, and how many there are, if there is one; and then where the run came to, if not to a halt.
fn tell_ran<E: Out>(alloc: Global, name: &str, ran: &RanTo, errors: &mut E) {
    if let Some(first) = ran.conflicts.first {
        let place = place(alloc, name, ran.conflict_line);
        let at = (first.loc, first.clock);
        tell(
            conflict_line(alloc, place, "warning", at, first.conflict),
            errors,
        );
        tell(count_line(alloc, name, ran.conflicts.count), errors);
    }
    match ran.end {
        RunEnd::Halted => {}
        RunEnd::Faulted(fault) => tell(stop_line(alloc, name, ran, fault), errors),
        RunEnd::UsedUp => tell(stop_line(alloc, name, ran, "steps used up"), errors),
        RunEnd::Conflicting(conflict) => {
            let place = place(alloc, name, ran.line);
            tell(
                conflict_line(alloc, place, "error", (ran.loc, ran.clock), conflict),
                errors,
            );
        }
    }
}

// The status of a run that came to its end.
fn status_of_end(end: RunEnd) -> u8
    ensures { result ≡ status_of_end end }
{
    match end {
        RunEnd::Halted => DONE,
        RunEnd::Faulted(_) | RunEnd::Conflicting(_) | RunEnd::UsedUp => NOT_DONE,
    }
}

// A halt, the time of the program, and why nothing of it is to be seen: `prog.mixal: halted at 0002
// after 13 u; nothing was printed: ..`.
fn halt_line(alloc: Global, name: &str, ran: &RanTo, shows: Shows) -> Result<String, AllocError> {
    let (loc, clock) = (Location(ran.loc), ran.clock);
    let seen = match shows {
        Shows::Nothing => "; nothing was printed: no OUT to units 17 to 20 was done",
        Shows::Blanks => "; only blank rows were printed: the cells that OUT wrote are +0",
        Shows::Letters => "",
    };
    format!(in alloc; "{name}: halted at {loc} after {clock} u{seen}\n")
}

/// Where a program halted is told, if that is asked for, and no table is; it comes before all else
/// that is told of its run.
pub(crate) fn tell_halt<E: Out>(
    alloc: Global,
    plan: &RunPlan,
    printed: &Result<Printed, ToolFault>,
    errors: &mut E,
)
    ensures { plan.now.tells_halt ≡ false → errors.new ≡ errors.old }
{
    if !plan.tells_halt || plan.table.is_some() {
        return;
    }
    let Ok(printed) = printed else {
        return;
    };
    if let PrintAnswer::Ran(ran) = &printed.answer {
        if matches!(ran.end, RunEnd::Halted) {
            let line = halt_line(alloc, plan.source.as_str(), ran, printed.shows);
            tell(line, errors);
        }
    }
}

/// The status of what a run answers. A fault of the tool is told, and why there is no table of what
/// is asked for; of a run that came to its end which of its steps conflict with a transfer under way, and
/// where it came to.
pub(crate) fn print_status<E: Out>(
    alloc: Global,
    plan: &RunPlan,
    printed: &Result<Printed, ToolFault>,
    file: &str,
    errors: &mut E,
) -> u8
    ensures { result ≡ status_of_print (answer_of printed.now) }
{
    match printed {
        Err(fault) => status(alloc, Err(*fault), Some(file), errors),
        Ok(printed) => match printed.answer {
            PrintAnswer::Ran(ran) => {
                tell_ran(alloc, plan.source.as_str(), &ran, errors);
                status_of_end(ran.end)
            }
            PrintAnswer::Refused(_) => SOURCE_REFUSED,
            PrintAnswer::NoTable(refusal) => {
                let subject = subject_of(&plan.subject);
                tell(format!(in alloc; "mixrev: {refusal}: {subject}\n"), errors);
                FAILED
            }
        },
    }
}
