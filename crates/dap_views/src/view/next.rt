//! `mix/next`: what one step more would be.

ghost use Rattle.std.specs.Prelude.{◌≡◌, IfOk, Err, Ok};
ghost use Rattle.mix_machine.specs.declared.old.Change.TheVariants.{Step};
ghost use Rattle.mix_machine.specs.Do.{does};
ghost use Rattle.mix_refused.specs.Refused.{IfFault};
ghost use Rattle.mix_session.specs.Timeline.{world_of};

use crate::view::change::{Worlds, change_between};
use crate::view::decoded::field_asked;
use crate::view::done::{change_kind, put_instruction_here};
use dap_asked::{Fault, put_exception};
use mix_machine::{Change, MixFault, World};
use mix_refused::{Memory, Refused};
use mix_session::{Session, change_text};
use mix_word::Field;
use rpc_message::{Fields, Request};
use serde_json::Value;
use std::alloc::Global;
use undo_core::{Kept, Undo};

/// The change that one step more would be, told and not done; or the fault that it would meet.
pub fn next_view(
    alloc: Global,
    session: &Session,
    request: &Request,
) -> Result<Value, Refused<Fault>> {
    let field = field_asked(request)?;
    Ok(next_shown(alloc, session, field)?)
}

fn next_shown(alloc: Global, session: &Session, field: Option<Field>) -> Result<Value, Memory> {
    // (no journal has room for one more)
    let Some(number) = (session.changes().len() as u64).checked_add(1) else {
        return Err(Memory);
    };
    let before = session.world();
    match after_step(alloc, session) {
        Ok(after) => {
            let worlds = Worlds {
                before,
                after: &after,
                field,
            };
            Ok(change_between(alloc, number, Change::Step, &worlds)?.done())
        }
        Err(Refused::Fault(fault)) => next_refused(alloc, number, before, fault),
        Err(Refused::Memory) => Err(Memory),
    }
}

// The machine after one step more, which is not done, or the fault that it would meet.
#[tactic(auto, using(crate::proofs::NextLemmas::machine_now))]
fn after_step(alloc: Global, session: &Session) -> Result<World, Refused<MixFault>>
    ensures step { IfOk result (λ after. does (world_of session.now.timeline) Step ≡ Ok after) }
    ensures fault { IfFault result (λ why. does (world_of session.now.timeline) Step ≡ Err why) }
{
    let mut after = session.world_at(alloc, session.changes().len())?;
    let mut kept = Kept::new(alloc);
    match after.apply(&Change::Step, &mut kept) {
        Ok(()) => Ok(after),
        Err(Refused::Fault(fault)) => Err(Refused::Fault(fault)),
        Err(Refused::Memory) => Err(Refused::Memory),
    }
}

fn next_refused(
    alloc: Global,
    number: u64,
    world: &World,
    fault: MixFault,
) -> Result<Value, Memory> {
    let mut body = Fields::new(alloc);
    body.number("number", number)?;
    body.number("location", u64::from(world.loc()))?;
    body.text("text", change_text(alloc, &Change::Step, world)?.as_str())?;
    put_exception(alloc, &mut body, fault)?;
    body.text("kind", change_kind(Change::Step))?;
    put_instruction_here(alloc, &mut body, world)?;
    Ok(body.done())
}
