//! Plain steps, as most of a run are: they alter no unit, and are no halt.
ghost use Rattle.std.specs.Prelude.{◌≡◌, ◌≤◌, ◌+◌, ◌-◌, IfOk};
ghost use Rattle.mix_run.specs.Print.{printed};

use crate::print::options::PrintOptions;
use crate::print::watch::Watch;
use mix_machine::{World, change_law, transfer_law};
use mix_refused::{Memory, Refused};
use mix_word::decode_law;
use std::alloc::Global;

/// The plain steps that come next, so many at most, if the run is not traced and no transfer is under way; how many steps are left. They write nothing, and
/// the run of those that are left is the run of all. (A step that is a fault is left too, since it alters nothing.)
pub(super) fn plain_steps(
    alloc: Global,
    world: &mut World,
    watch: &Watch,
    options: PrintOptions,
    most: u64,
) -> Result<u64, Memory>
    requires { most ≤ options.steps }
    ensures fewer { IfOk result (λ left. left ≤ most) }
    ensures same { IfOk result (λ left. printed options (options.steps - most + 1) most watch.now.transfers world.old
        ≡ printed options (options.steps - left + 1) left watch.now.transfers world.new) }
    ensures units { IfOk result (λ _. world.new.units ≡ world.old.units) }
{
    // (the clock goes no way but forward, so one look at it does for all steps)
    if options.trace || world.clock() < watch.transfers.last_end() {
        return Ok(most);
    }
    change_law();
    decode_law();
    transfer_law();
    let mut left = most;
    while left > 0 {
        let plain = world.next_is_plain();
        if !plain {
            return Ok(left);
        }
        let (done, answer) = world.run(alloc, left as usize);
        match answer {
            Err(Refused::Memory) => return Err(Memory),
            _ => left -= done as u64,
        }
        // (the next step is a fault)
        if done == 0 {
            return Ok(left);
        }
    }
    Ok(left)
}
