//! The breakpoints of the client, and the kinds of exceptions that stop a run. They stand outside the machine, so no change of it takes one away.

ghost use Rattle.std.specs.Prelude.{◌≡◌, OnOk, OnErr};
ghost use Rattle.mix_session.specs.Stops.{is_awaited};
ghost use Rattle.dap_points.specs.Points.{no_points, is_filter, passes, reason_at, stops_of, with_arrivals};

mod amount;
mod breakpoint;
mod comparison;
mod filters;
mod joined;
mod kinds;
mod line;
mod locations;
mod source;

use breakpoint::{Breakpoint, count_all, stop_any};
use filters::Filters;
use joined::{both, cells_of};
pub use kinds::never;
use kinds::{Instructions, Lines, Parts, set_all};
pub(crate) use line::cell_of_line;
pub use locations::breakpoint_locations;
use mix_machine::{Place, World};
use mix_refused::Memory;
use mix_session::{Condition, Session, Stops};
use rpc_message::Request;
use serde_json::Value;
use source::is_source;
use std::alloc::Global;
use std::marker::Model;

/// The breakpoints of lines and of instructions where runs stop, what is watched, and the kinds of exceptions that stop a run.
#[derive(Drop)]
pub struct Points {
    lines: Vec<Breakpoint>,
    instructions: Vec<Breakpoint>,
    // Those of lines first.
    cells: Vec<Place>,
    watched: Vec<Condition>,
    filters: Vec<Condition>,
    // What is watched first.
    conditions: Vec<Condition>,
}

impl Model for Points {
    ghost use Rattle.std.specs.Prelude.{◌≡◌, ◌++◌};
    ghost use Rattle.dap_points.specs.Points.{PointsState, cells_of};

    ghost Value = { PointsState };

    ghost view = { λ p. record {
      lines = p.lines.items;
      instructions = p.instructions.items;
      watched = p.watched.items;
      filters = p.filters.items;
    } };

    ghost invariant = { λ p. (p.cells.items ≡ cells_of (p.lines.items ++ p.instructions.items)) × (p.conditions.items ≡ p.watched.items ++ p.filters.items) };
}

impl Points {
    /// No breakpoint.
    pub fn new(alloc: Global) -> Points
        ensures { result ≡ no_points }
    {
        Points {
            lines: Vec::new(alloc),
            instructions: Vec::new(alloc),
            cells: Vec::new(alloc),
            watched: Vec::new(alloc),
            filters: Vec::new(alloc),
            conditions: Vec::new(alloc),
        }
    }

    /// What stops a run, with a location that is waited for.
    pub fn stops(&self, location: Option<u16>) -> Stops<'_>
        ensures { result ≡ stops_of self.now location }
    {
        Stops {
            breaks: false,
            cells: self.cells.as_slice(),
            watched: self.conditions.as_slice(),
            location,
        }
    }

    /// Counts that a run has come to a cell of breakpoints.
    pub fn count(&mut self, world: &World)
        ensures { self.new ≡ with_arrivals world.now self.old }
    {
        count_all(self.lines.as_mut_slice(), world);
        count_all(self.instructions.as_mut_slice(), world);
    }

    /// Whether a run goes on past a cell of breakpoints, that it has come there counted.
    pub fn passes(&self, location: Option<u16>, world: &World) -> bool
        ensures { result ≡ passes self.now location world.now }
    {
        let stops = stop_any(self.lines.as_slice(), world)
            || stop_any(self.instructions.as_slice(), world)
            || is_awaited(location, world);
        !stops
    }

    /// Why a run stops at a cell of breakpoints, in the protocol's words.
    pub fn reason_at(&self, world: &World) -> &'static str
        ensures { result.now ≡ reason_at self.now world.now }
    {
        if stop_any(self.lines.as_slice(), world) {
            "breakpoint"
        } else if stop_any(self.instructions.as_slice(), world) {
            "instruction breakpoint"
        } else {
            "step"
        }
    }

    /// Puts breakpoints of lines in place of those that stand; those of another source are none.
    pub fn set_lines(
        &mut self,
        alloc: Global,
        session: &Session,
        name: &str,
        first: u64,
        request: &Request,
    ) -> Result<Value, Memory>
        ensures stand { OnOk result (self.new ≡ record self.old { lines = self.new.lines }) }
        ensures same { OnErr result (self.new ≡ self.old) }
    {
        if !is_source(name, request) {
            return never(alloc, "another source", request, "breakpoints");
        }
        let (lines, told) = set_all(alloc, &Lines { session, first }, request, "breakpoints")?;
        let cells = cells_of(alloc, lines.as_slice(), self.instructions.as_slice())?;
        self.lines = lines;
        self.cells = cells;
        Ok(told)
    }

    /// Puts breakpoints of instructions in place of those that stand.
    pub fn set_instructions(
        &mut self,
        alloc: Global,
        session: &Session,
        request: &Request,
    ) -> Result<Value, Memory>
        ensures stand { OnOk result (self.new ≡ record self.old { instructions = self.new.instructions }) }
        ensures same { OnErr result (self.new ≡ self.old) }
    {
        let (instructions, told) = set_all(
            alloc,
            &Instructions { session },
            request,
            "breakpoints",
        )?;
        let cells = cells_of(alloc, self.lines.as_slice(), instructions.as_slice())?;
        self.instructions = instructions;
        self.cells = cells;
        Ok(told)
    }

    /// Puts data breakpoints in place of those that stand.
    pub fn set_data(
        &mut self,
        alloc: Global,
        session: &Session,
        request: &Request,
    ) -> Result<Value, Memory>
        ensures stand { OnOk result (self.new ≡ record self.old { watched = self.new.watched }) }
        ensures same { OnErr result (self.new ≡ self.old) }
    {
        let (watched, told) = set_all(alloc, &Parts { session }, request, "breakpoints")?;
        let conditions = both(alloc, watched.as_slice(), self.filters.as_slice())?;
        self.watched = watched;
        self.conditions = conditions;
        Ok(told)
    }

    /// Puts kinds of exceptions in place of those that stop a run.
    pub fn set_filters(&mut self, alloc: Global, request: &Request) -> Result<Value, Memory>
        ensures stand { OnOk result (self.new ≡ record self.old { filters = self.new.filters }) }
        ensures same { OnErr result (self.new ≡ self.old) }
    {
        let (filters, told) = set_all(alloc, &Filters, request, "filters")?;
        let conditions = both(alloc, self.watched.as_slice(), filters.as_slice())?;
        self.filters = filters;
        self.conditions = conditions;
        Ok(told)
    }

    /// Whether the condition of a number that ended a run is a kind of exceptions.
    pub fn is_filter(&self, index: usize) -> bool
        ensures { result ≡ is_filter self.now index }
    {
        index >= self.watched.len()
    }
}

// Whether the location is the one that is waited for.
fn is_awaited(location: Option<u16>, world: &World) -> bool
    ensures { result ≡ is_awaited location world.now }
{
    match location {
        Some(location) => world.loc() == location,
        None => false,
    }
}
