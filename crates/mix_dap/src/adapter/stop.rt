//! What is told when the program stops, or when what the client shows is out of date.
#![tactic(auto, using(crate::proofs::EventLemmas::events))]

ghost use Rattle.std.specs.Prelude.{◌≡◌, [], ◌∷◌, ◌++◌, IfOk, OnOk, None, Some, codes};
ghost use Rattle.std.specs.Option.{option_map};
ghost use Rattle.mix_session.specs.Prelude.{conflict_text, world_of};
ghost use Rattle.mix_dap.specs.Ended.{end_told, fault_told, over_told};
ghost use Rattle.mix_dap.specs.Events.{AddsEvents, invalidated, out_of_date, stopped};
ghost use Rattle.mix_dap.specs.Prelude.{all_told, outputs, Keeps};
ghost use Rattle.mix_dap.specs.Runs.{before_last, conflict_met, meets_filter, why_of_run, word_at};
ghost use Rattle.mix_dap.specs.Stopped.{reason_of, fault_at, out_of_memory, why_of, why_with};

use crate::adapter::ends::{fault_at, is_paused, put_text, text_of};
use crate::adapter::{Adapter, Way};
use crate::event::tell_event;
use crate::launch::Opening;
use dap_asked::THREAD;
use dap_points::Points;
use mix_machine::{Conflict, MixFault};
use mix_refused::Memory;
use mix_session::{End, Session, conflict_text};
use rpc_message::{Fields, Outbox};
use serde_json::Value;
use std::alloc::Global;

impl Adapter {
    // Tells what a step that has ended so has written, and why the program stops.
    pub(crate) fn stop_step(&mut self, end: End, out: &mut Outbox) -> Result<(), Memory>
        ensures keeps { Keeps self.old self.new }
        ensures session { self.new.session ≡ self.old.session }
        ensures fault { self.new.fault ≡ fault_at end }
        ensures printed { OnOk result (self.new.printed ≡ all_told (world_of self.old.session.timeline)) }
        ensures tells { OnOk result (AddsEvents (outputs self.old.printed (world_of self.old.session.timeline)
            ++ stopped (why_of (word_at self.old.points self.old.session.timeline) end) ∷ []) out.old out.new) }
    {
        self.fault = fault_at(end);
        self.printed.tell(self.alloc, self.session.world(), out)?;
        self.tell_why(None, end, out)?;
        Ok(())
    }

    // The same of a run this way.
    pub(crate) fn stop_run(&mut self, way: Way, end: End, out: &mut Outbox) -> Result<(), Memory>
        ensures keeps { Keeps self.old self.new }
        ensures session { self.new.session ≡ self.old.session }
        ensures fault { self.new.fault ≡ fault_at end }
        ensures printed { OnOk result (self.new.printed ≡ all_told (world_of self.old.session.timeline)) }
        ensures tells { OnOk result (AddsEvents (outputs self.old.printed (world_of self.old.session.timeline)
            ++ end_told self.old.opening (Some end) (why_of_run way self.old.points self.old.session.timeline end)) out.old out.new) }
    {
        self.fault = fault_at(end);
        self.printed.tell(self.alloc, self.session.world(), out)?;
        self.tell_ended(way, end, out)?;
        Ok(())
    }

    // Tells why the program stops, or that it has ended, if it is not debugged.
    fn tell_ended(&self, way: Way, end: End, out: &mut Outbox) -> Result<(), Memory>
        ensures { OnOk result (AddsEvents (end_told self.now.opening (Some end) (why_of_run way self.now.points self.now.session.timeline end)) out.old out.new) }
    {
        match self.opening {
            Opening::Stops | Opening::Runs => self.tell_end(way, end, out),
            Opening::Free => self.tell_over(way, end, out),
        }
    }

    // Tells that a program which is not debugged has ended, if it has.
    fn tell_over(&self, way: Way, end: End, out: &mut Outbox) -> Result<(), Memory>
        ensures { OnOk result (AddsEvents (over_told (Some end) (why_of_run way self.now.points self.now.session.timeline end)) out.old out.new) }
    {
        match end {
            End::Halt => tell_event("terminated", out),
            End::Fault(fault) => {
                tell_fault(self.alloc, fault, out)?;
                tell_event("terminated", out)?;
                Ok(())
            }
            End::Until(_) | End::Break | End::Arrived | End::Limit | End::Start => {
                self.tell_end(way, end, out)
            }
        }
    }

    // Tells why a run this way stops that has ended so.
    fn tell_end(&self, way: Way, end: End, out: &mut Outbox) -> Result<(), Memory>
        ensures { OnOk result (AddsEvents (stopped (why_of_run way self.now.points self.now.session.timeline end) ∷ []) out.old out.new) }
    {
        if is_paused(way, end) {
            self.stopped("pause", Some("paused after 1000000 changes"), out)
        } else {
            self.tell_why(self.conflict_met(way, end)?, end, out)
        }
    }

    // Tells why the program stops, by the conflict at which a run has ended, if it ended at one.
    fn tell_why(&self, conflict: Option<Conflict>, end: End, out: &mut Outbox) -> Result<(), Memory>
        ensures { OnOk result (AddsEvents (stopped (why_with conflict (word_at self.now.points self.now.session.timeline) end) ∷ []) out.old out.new) }
    {
        match conflict {
            Some(conflict) => self.tell_conflict(conflict, out),
            None => {
                let text = text_of(self.alloc, end)?;
                self.stopped(self.reason_of(end), text.as_deref(), out)?;
                Ok(())
            }
        }
    }

    fn tell_conflict(&self, conflict: Conflict, out: &mut Outbox) -> Result<(), Memory>
        ensures { OnOk result (AddsEvents (stopped (record { reason = codes "exception"; text = Some (conflict_text conflict) }) ∷ []) out.old out.new) }
    {
        let text = conflict_text(self.alloc, conflict)?;
        self.stopped("exception", Some(text.as_str()), out)?;
        Ok(())
    }

    // The conflict at which a run this way has ended, if it ended at one.
    fn conflict_met(&self, way: Way, end: End) -> Result<Option<Conflict>, Memory>
        ensures { IfOk result (λ conflict. conflict ≡ conflict_met way self.now.points self.now.session.timeline end) }
    {
        if meets_filter(&self.points, end) {
            let number = before_last(way, &self.session);
            self.session.conflict_after(self.alloc, number)
        } else {
            Ok(None)
        }
    }

    // Why a run has ended so, in the protocol's word.
    fn reason_of(&self, end: End) -> &'static str
        ensures { result.now ≡ reason_of (word_at self.now.points self.now.session.timeline) end }
    {
        match end {
            End::Halt => "halt",
            End::Fault(_) => "exception",
            End::Until(_) => "data breakpoint",
            End::Break => self.points.reason_at(self.session.world()),
            End::Arrived | End::Limit => "step",
            End::Start => "entry",
        }
    }

    // Tells that memory was refused for a run.
    pub(crate) fn stop_for_memory(&mut self, out: &mut Outbox) -> Result<(), Memory>
        ensures keeps { Keeps self.old self.new }
        ensures session { self.new.session ≡ self.old.session }
        ensures fault { self.new.fault ≡ None }
        ensures printed { OnOk result (self.new.printed ≡ all_told (world_of self.old.session.timeline)) }
        ensures tells { OnOk result (AddsEvents (outputs self.old.printed (world_of self.old.session.timeline) ++ stopped out_of_memory ∷ []) out.old out.new) }
    {
        self.fault = None;
        self.printed.tell(self.alloc, self.session.world(), out)?;
        self.stopped("exception", Some("T1 out of memory"), out)?;
        Ok(())
    }

    pub(crate) fn stopped(
        &self,
        reason: &str,
        text: Option<&str>,
        out: &mut Outbox,
    ) -> Result<(), Memory>
        ensures { OnOk result (AddsEvents (stopped (record { reason = reason.now; text = option_map (λ t. t.now) text.entry }) ∷ []) out.old out.new) }
    {
        let mut body = Fields::new(self.alloc);
        body.text("reason", reason)?;
        body.number("threadId", THREAD)?;
        body.flag("allThreadsStopped", true)?;
        put_text(&mut body, text)?;
        let body = body.done();
        out.event("stopped", body)?;
        Ok(())
    }

    // What the client shows is out of date, after a change that no stop tells of.
    pub(crate) fn invalidated(&self, out: &mut Outbox) -> Result<(), Memory>
        ensures { OnOk result (AddsEvents (invalidated self.now.client) out.old out.new) }
    {
        if self.client.hears_invalidated {
            out_of_date(self.alloc, out)
        } else {
            Ok(())
        }
    }
}

// Tells a fault to the one who runs the program.
fn tell_fault(alloc: Global, fault: MixFault, out: &mut Outbox) -> Result<(), Memory>
    ensures { OnOk result (AddsEvents (fault_told fault ∷ []) out.old out.new) }
{
    let text = format!(in alloc; "{fault}\n")?;
    out.output("stderr", text.as_str())?;
    Ok(())
}

// Whether a run has ended for a kind of exceptions.
fn meets_filter(points: &Points, end: End) -> bool
    ensures { result ≡ meets_filter points.now end }
{
    match end {
        End::Until(index) => points.is_filter(index),
        End::Halt | End::Fault(_) | End::Break | End::Arrived | End::Limit | End::Start => false,
    }
}

// How many changes are before the one that a run this way has ended with.
fn before_last(way: Way, session: &Session) -> usize
    ensures { result ≡ before_last way session.now.timeline }
{
    let done = session.changes().len();
    match way {
        Way::Forth(_) | Way::Over(_) => done.saturating_sub(1),
        Way::Back => done,
    }
}

fn out_of_date(alloc: Global, out: &mut Outbox) -> Result<(), Memory>
    ensures { OnOk result (AddsEvents (out_of_date ∷ []) out.old out.new) }
{
    let mut areas = Vec::new(alloc);
    areas.push(Value::try_from_str(alloc, "all")?)?;
    let mut body = Fields::new(alloc);
    body.list("areas", areas)?;
    out.event("invalidated", body.done())?;
    Ok(())
}
