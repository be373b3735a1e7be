//! The table of steps that is asked for, and the part of the machine that it is of.
ghost use Rattle.std.specs.Prelude.{◌≡◌, ◌++◌, IfOk, codes};
ghost use Rattle.mix_session.specs.Client.{condition_at};
ghost use Rattle.mix_run.specs.StepTable.{part_of, part_named, step_table};

use crate::print::options::{AskedTable, TableOf};
use crate::print::tabled::StepTable;
use mix_machine::Part;
use mix_refused::Memory;
use mix_session::{Condition, Refusal, Session};
use std::alloc::Global;

/// The name of a part after `cell`, which may be left out.
pub(super) fn cell_named(alloc: Global, part: &[u8]) -> Result<Vec<u8>, Memory>
    ensures { IfOk result (λ text. text.items ≡ codes "cell " ++ part.now) }
{
    let mut text = Vec::new(alloc);
    text.extend_from_slice(b"cell ")?;
    text.extend_from_slice(part)?;
    Ok(text)
}

/// The table of steps that is asked for, if one is; why the part that it is to be of is none.
#[tactic(auto, unfolding(crate::specs::StepTable::step_table))]
pub(super) fn step_table(
    session: &Session,
    asked: Option<AskedTable>,
    part: &[u8],
    cell: &[u8],
) -> Result<Option<StepTable>, Refusal>
    requires { cell.now ≡ codes "cell " ++ part.now }
    ensures { result ≡ step_table asked part.now session.now }
{
    let Some(AskedTable { of, format }) = asked else {
        return Ok(None);
    };
    match of {
        TableOf::Counts | TableOf::Formulas => Ok(None),
        TableOf::Trace => Ok(Some(StepTable { format, part: None })),
        TableOf::Writes => match part_named(session, part, cell) {
            Err(refusal) => Err(refusal),
            Ok(part) => Ok(Some(StepTable {
                format,
                part: Some(part),
            })),
        },
    }
}

// The part that a text names, as in `show writes`, where `cell` may be left out.
fn part_named(session: &Session, part: &[u8], cell: &[u8]) -> Result<Part, Refusal>
    requires { cell.now ≡ codes "cell " ++ part.now }
    ensures { result ≡ part_named session.now part.now }
{
    match part_at(session, part) {
        Err(Refusal::BadArgument) => part_at(session, cell),
        other => other,
    }
}

// The part that a text names as it is, if it is one that a condition has.
fn part_at(session: &Session, text: &[u8]) -> Result<Part, Refusal>
    ensures { result ≡ part_of (condition_at session.now text.now) }
{
    match session.condition(text) {
        Err(refusal) => Err(refusal),
        Ok(Condition::Alters(part)) => Ok(part),
        Ok(Condition::At(_) | Condition::Conflicts) => Err(Refusal::BadArgument),
    }
}
