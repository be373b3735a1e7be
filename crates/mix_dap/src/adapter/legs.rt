//! A run: one leg after the other, until something ends it that is no breakpoint which the run goes on past.

ghost use Rattle.std.specs.Prelude.{◌≡◌, IfErr, IfOk};
ghost use Rattle.mix_session.specs.declared.answer.Answer.TheVariants.{Ran};
ghost use Rattle.mix_session.specs.Command.{Begun};
ghost use Rattle.mix_dap.specs.Runs.{Leg, RunBroken, RunDone, awaited_by, effect_of_leg, most_of, passes_by, points_counted, timeline_after};

use crate::adapter::Way;
use dap_points::Points;
use mix_machine::World;
use mix_refused::Memory;
use mix_session::{End, Session};

/// The most changes of a run, after which the client is heard.
pub(crate) const MOST: u32 = 1_000_000;

/// A whole run, and how it has ended.
pub(crate) fn run_legs(session: &mut Session, points: &mut Points, way: Way) -> Result<End, Memory>
    ensures program { session.new.program ≡ session.old.program }
    ensures first { session.new.timeline.first ≡ session.old.timeline.first }
    ensures done { IfOk result (λ end. RunDone way points.old session.old.timeline end points.new session.new.timeline) }
    ensures broken { IfErr result (λ _. RunBroken way points.old session.old.timeline points.new session.new.timeline) }
{
    let mut left = most_of(way);
    'legs: loop {
        let (made, end) = run_leg(session, points, way, left)?;
        if !passes_by(end, points, awaited_by(way), session.world()) {
            return Ok(end);
        }
        left = left.saturating_sub(made);
    }
}

/// How many changes it has at most.
pub(crate) fn most_of(way: Way) -> u32
    ensures { result ≡ most_of way }
{
    match way {
        Way::Forth(_) | Way::Back => MOST,
        Way::Over(steps) => steps,
    }
}

// A leg of at most so many changes: how many it has made, and how it has ended. If it has come to a cell of breakpoints, that is counted.
fn run_leg(
    session: &mut Session,
    points: &mut Points,
    way: Way,
    left: u32,
) -> Result<(u32, End), Memory>
    ensures program { session.new.program ≡ session.old.program }
    ensures first { session.new.timeline.first ≡ session.old.timeline.first }
    ensures done { let leg : Leg = record { points = points.old; timeline = session.old.timeline; left = left } in
        IfOk result (λ ran. (session.new.timeline ≡ timeline_after way leg) × ((effect_of_leg way leg).answer ≡ Ran ran.0 ran.1)
        × (points.new ≡ points_counted way leg)) }
    ensures begun { let leg : Leg = record { points = points.old; timeline = session.old.timeline; left = left } in
        IfErr result (λ _. Begun (effect_of_leg way leg) session.new.timeline × (points.new ≡ points.old)) }
{
    let (made, end) = run_to(session, points, way, left)?;
    match end {
        End::Halt | End::Until(_) | End::Break => points.count(session.world()),
        End::Fault(_) | End::Arrived | End::Limit | End::Start => {}
    }
    Ok((made, end))
}

// The changes of a leg.
fn run_to(session: &mut Session, points: &Points, way: Way, left: u32) -> Result<(u32, End), Memory>
    ensures program { session.new.program ≡ session.old.program }
    ensures first { session.new.timeline.first ≡ session.old.timeline.first }
    ensures done { let leg : Leg = record { points = points.now; timeline = session.old.timeline; left = left } in
        IfOk result (λ ran. (session.new.timeline ≡ timeline_after way leg) × ((effect_of_leg way leg).answer ≡ Ran ran.0 ran.1)) }
    ensures begun { let leg : Leg = record { points = points.now; timeline = session.old.timeline; left = left } in
        IfErr result (λ _. Begun (effect_of_leg way leg) session.new.timeline) }
{
    let (way, location) = match way {
        Way::Forth(location) => (mix_session::Way::Again, location),
        Way::Over(_) => (mix_session::Way::Again, None),
        Way::Back => (mix_session::Way::Back, None),
    };
    session.run(way, left, &points.stops(location))
}

// The location that a run waits for.
fn awaited_by(way: Way) -> Option<u16>
    ensures { result ≡ awaited_by way }
{
    match way {
        Way::Forth(location) => location,
        Way::Over(_) | Way::Back => None,
    }
}

// Whether a run that has ended so goes on past the breakpoints to which it has come.
fn passes_by(end: End, points: &Points, location: Option<u16>, world: &World) -> bool
    ensures { result ≡ passes_by end points.now location world.now }
{
    match end {
        End::Break => points.passes(location, world),
        End::Halt | End::Fault(_) | End::Until(_) | End::Arrived | End::Limit | End::Start => false,
    }
}
