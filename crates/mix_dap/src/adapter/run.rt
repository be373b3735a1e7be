//! Runs, and what is told of them.

ghost use Rattle.std.specs.Prelude.{◌≡◌, IfOk, OnErr, OnOk, None};
ghost use Rattle.mix_dap.specs.Events.{AddsEvents, beginning};
ghost use Rattle.mix_dap.specs.Reaction.{begun};
ghost use Rattle.mix_dap.specs.Reacts.{Keeps, KeepsSaid, Runs, RunsPartly};
ghost use Rattle.mix_dap.specs.declared.adapter.Then.TheVariants as then;

use crate::adapter::legs::run_legs;
use crate::adapter::{Adapter, Then, Way};
use crate::launch::Opening;
use mix_refused::Memory;
use rpc_message::Outbox;

impl Adapter {
    // The first stop or the first run, as the launch asked.
    #[tactic(auto, using(crate::proofs::EventLemmas::events))]
    pub(crate) fn begin(&mut self, out: &mut Outbox) -> Result<Then, Memory>
        ensures keeps { Keeps self.old self.new }
        ensures session { self.new.session ≡ self.old.session }
        ensures fault { self.new.fault ≡ None }
        ensures printed { self.new.printed ≡ self.old.printed }
        ensures tells { OnOk result (AddsEvents (beginning self.old.opening) out.old out.new) }
        ensures later { IfOk result (λ later. later ≡ begun self.old.opening) }
    {
        self.fault = None;
        match self.opening {
            Opening::Stops => {
                self.stopped("entry", None, out)?;
                Ok(Then::Wait)
            }
            Opening::Runs | Opening::Free => Ok(Then::Run(Way::Forth(None))),
        }
    }

    // The program runs this way up to where it stops, and that is told.
    pub(crate) fn run(&mut self, way: Way, out: &mut Outbox) -> Result<(), Memory>
        ensures keeps { KeepsSaid self.old self.new }
        ensures program { self.new.session.program ≡ self.old.session.program }
        ensures first { self.new.session.timeline.first ≡ self.old.session.timeline.first }
        ensures runs { OnOk result (Runs way self.old self.new out.old out.new) }
        ensures begun { OnErr result (RunsPartly (then.Run way) self.old.points self.old.session.timeline self.new.session.timeline) }
    {
        match run_legs(&mut self.session, &mut self.points, way) {
            Ok(end) => {
                self.stop_run(way, end, out)?;
                Ok(())
            }
            Err(Memory) => {
                self.stop_for_memory(out)?;
                Ok(())
            }
        }
    }
}
