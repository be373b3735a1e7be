//! What only looks, and what sets breakpoints.

ghost use Rattle.std.specs.Prelude.{◌≡◌, OnOk, OnErr};
ghost use Rattle.dap_points.specs.Points.{with_kind};
ghost use Rattle.mix_dap.specs.Reaction.{kind_set};

use crate::adapter::Adapter;
use crate::launch::Opening;
use dap_asked::{
    Fault, Look, Name, Target, data_breakpoint_info, put_exception, read_memory, scopes,
    stack_trace, threads,
};
use dap_points::{breakpoint_locations, completions_view, disassemble, goto_targets, never};
use dap_views::{
    analysis_view, change_view, counts_view, next_view, nodes_view, passages_view, path_view,
    program_view, state_view, units_view, variables_view, writes_view,
};
use mix_machine::MixFault;
use mix_refused::{Memory, Refused};
use rpc_message::{Fields, Request};
use serde_json::Value;
use std::alloc::Global;

impl Adapter {
    // What changes nothing.
    pub(crate) fn show(&self, look: Look, request: &Request) -> Result<Value, Refused<Fault>> {
        let alloc = self.alloc;
        let first = self.client.first;
        let session = &self.session;
        let name = Name::of(self.name.as_str());
        match look {
            Look::Threads => Ok(threads(alloc)?),
            Look::Frames => Ok(stack_trace(alloc, session, name, first, request)?),
            Look::Scopes => Ok(scopes(alloc)?),
            Look::Variables => variables_view(alloc, session.world(), request),
            Look::Fault => exception_info(alloc, self.fault),
            Look::Memory => read_memory(alloc, session.world(), request),
            Look::Instructions => disassemble(alloc, session, name, first, request),
            Look::Targets => goto_targets(alloc, session, first, request),
            Look::Watch => data_breakpoint_info(alloc, session, request),
            Look::Locations => {
                breakpoint_locations(alloc, session.program(), name.whole, first, request)
            }
            Look::Completions => completions_view(
                alloc,
                session,
                self.client.first_column,
                request,
            ),
            Look::Program => Ok(program_view(alloc, session.program())?),
            Look::Counts => Ok(counts_view(alloc, session, request)?),
            Look::Path => path_view(alloc, session, request),
            Look::State => state_view(alloc, session, request),
            Look::Units => units_view(alloc, session.world(), request),
            Look::Change => change_view(alloc, session, request),
            Look::Next => next_view(alloc, session, request),
            Look::Writes => writes_view(alloc, session, request),
            Look::Nodes => nodes_view(alloc, session, request),
            Look::Passages => passages_view(alloc, session, request),
            Look::Analysis => analysis_view(alloc, session, request),
        }
    }

    // Breakpoints in place of those that stand, unless the program is not debugged; nothing else is altered. None is refused.
    pub(crate) fn set_points(&mut self, target: Target, request: &Request) -> Result<Value, Memory>
        ensures stand { OnOk result (self.new ≡ record self.old { points = with_kind (kind_set self.old.opening target) self.new.points self.old.points }) }
        ensures same { OnErr result (self.new ≡ self.old) }
    {
        match self.opening {
            Opening::Stops | Opening::Runs => self.replace_points(target, request),
            Opening::Free => none_set(self.alloc, target, request),
        }
    }

    fn replace_points(&mut self, target: Target, request: &Request) -> Result<Value, Memory>
        ensures stand { OnOk result (self.new ≡ record self.old { points = with_kind target self.new.points self.old.points }) }
        ensures same { OnErr result (self.new ≡ self.old) }
    {
        let alloc = self.alloc;
        match target {
            Target::Lines => {
                let first = self.client.first;
                self.points
                    .set_lines(alloc, &self.session, self.name.as_str(), first, request)
            }
            Target::Instructions => { self.points.set_instructions(alloc, &self.session, request) }
            Target::Data => self.points.set_data(alloc, &self.session, request),
            Target::Exceptions => self.points.set_filters(alloc, request),
            Target::Nothing => never(alloc, "no such function", request, "breakpoints"),
        }
    }
}

// That none is set on a program that is not debugged.
fn none_set(alloc: Global, target: Target, request: &Request) -> Result<Value, Memory> {
    match target {
        Target::Lines | Target::Instructions | Target::Data => {
            never(alloc, "not debugged", request, "breakpoints")
        }
        Target::Exceptions => never(alloc, "not debugged", request, "filters"),
        Target::Nothing => never(alloc, "no such function", request, "breakpoints"),
    }
}

// The fault at which the program stopped.
fn exception_info(alloc: Global, fault: Option<MixFault>) -> Result<Value, Refused<Fault>> {
    let Some(fault) = fault else {
        return Err(Refused::Fault(Fault::NoSuchThing));
    };
    let mut body = Fields::new(alloc);
    put_exception(alloc, &mut body, fault)?;
    body.text("breakMode", "always")?;
    Ok(body.done())
}
