//! A breakpoint at a cell: which arrivals of a run stop it there.

ghost use Rattle.std.specs.Prelude.{◌≡◌, map};
ghost use Rattle.std.specs.List.{list_any};
ghost use Rattle.dap_points.specs.Breakpoint.{holds, arrives, with_arrival, stops};

use crate::points::comparison::{Comparison, comparison_in};
use dap_asked::text_in;
use mix_lines::long_number;
use mix_machine::{Place, World};
use mix_session::Session;
use serde_json::Value;

/// A breakpoint at a cell.
#[derive(Clone, Copy)]
pub(crate) struct Breakpoint {
    pub cell: Place,
    /// What is to hold at an arrival that counts.
    pub condition: Option<Comparison>,
    /// How many arrivals more it takes until it stops a run.
    pub left: u64,
}

/// Why a breakpoint that is asked for does not stand.
#[derive(Clone, Copy)]
pub(crate) enum Flaw {
    /// There is no word from its line on.
    NoWord,
    /// There is no cell of its reference.
    NoCell,
    /// Its condition says nothing that can hold.
    NoCondition,
    /// Its hit count is no number, or 0.
    NoCount,
}

impl Flaw {
    /// As it is told.
    pub(crate) fn text(self) -> &'static str {
        match self {
            Flaw::NoWord => "no word from this line on",
            Flaw::NoCell => "no such cell",
            Flaw::NoCondition => "no such condition",
            Flaw::NoCount => "no such hit count",
        }
    }
}

impl Breakpoint {
    // Whether a run arrives at it: at its cell, where its condition holds.
    fn arrives(&self, world: &World) -> bool
        ensures { result ≡ arrives world.now self.now }
    {
        self.cell.number() == world.loc() && holds(world, self.condition)
    }

    // One arrival less is waited for, if this is one.
    fn with_arrival(&self, world: &World) -> Breakpoint
        ensures { result ≡ with_arrival world.now self.now }
    {
        if self.arrives(world) {
            Breakpoint {
                cell: self.cell,
                condition: self.condition,
                left: self.left.saturating_sub(1),
            }
        } else {
            *self
        }
    }

    // Whether a run stops at it, that arrival counted.
    fn stops(&self, world: &World) -> bool
        ensures { result ≡ stops world.now self.now }
    {
        self.arrives(world) && self.left == 0
    }
}

/// Counts an arrival at each of some breakpoints.
pub(crate) fn count_all(points: &mut [Breakpoint], world: &World)
    ensures { points.new ≡ map (with_arrival world.now) points.old }
{
    for point in points.iter_mut() {
        *point = point.with_arrival(world);
    }
}

/// Whether one of some breakpoints stops a run.
pub(crate) fn stop_any(points: &[Breakpoint], world: &World) -> bool
    ensures { result ≡ list_any (stops world.now) points.now }
{
    points.iter().any(|point| point.stops(world))
}

// Without a condition, it always holds.
fn holds(world: &World, condition: Option<Comparison>) -> bool
    ensures { result ≡ holds world.now condition }
{
    match condition {
        None => true,
        Some(comparison) => comparison.holds(world),
    }
}

/// The breakpoint at a cell that an entry asks for, or why none stands there.
pub(crate) fn breakpoint_at(
    session: &Session,
    entry: &Value,
    cell: Place,
) -> Result<Breakpoint, Flaw> {
    let condition = match written_in("condition", entry) {
        None => None,
        Some(text) => Some(comparison_in(session, text).ok_or(Flaw::NoCondition)?),
    };
    let left = match written_in("hitCondition", entry) {
        None => 1,
        Some(text) => match long_number(text.as_bytes()) {
            None | Some(0) => return Err(Flaw::NoCount),
            Some(number) => number,
        },
    };
    Ok(Breakpoint {
        cell,
        condition,
        left,
    })
}

// A member that is a text; a blank one counts as none.
fn written_in<'v>(name: &str, entry: &'v Value) -> Option<&'v str> {
    let text = text_in(name, entry)?;
    if text.trim_end().is_empty() {
        None
    } else {
        Some(text)
    }
}
