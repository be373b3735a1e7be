//! A store put back: the clock, the location and the cell that it overwrote.
ghost use Rattle.std.specs.Prelude.{◌≡◌, ◌-◌, ◌/◌, ◌<◌, ◌≤◌, ◌++◌, [], ◌∷◌, IsSome, length, drop, vec_len, vec_capacity};
ghost use Rattle.undo_core.specs.Replay.{put_back};
ghost use Rattle.mix_machine.specs.Prelude.{put_value, header_of, said, Restored};
ghost use Rattle.mix_machine.specs.declared.pack.kind.Kind.TheVariants as kind;

use crate::old::Old;
use crate::pack::{Anchor, before_store, long, store_of};
use crate::world::World;

impl World {
    // Puts back the clock, the location and the cell that the header of a store says, where all may be taken off, or else the last one.
    #[inline(always)]
    pub(super) fn restore_store(
        &mut self,
        header: u32,
        units: &mut Vec<u32>,
        anchor: &mut Anchor,
        most: usize,
    ) -> usize
        requires kind { header ≡ header_of kind.Store (header / 16) }
        requires room { vec_len units.old < vec_capacity units.old }
        requires most { 0 < most }
        requires within { most ≤ length (said anchor.old (units.old.items ++ header ∷ [])) }
        requires fits { IsSome (put_back put_value (drop (length (said anchor.old (units.old.items ++ header ∷ [])) - most) (said anchor.old (units.old.items ++ header ∷ []))) self.old) }
        ensures restored { Restored (said anchor.old (units.old.items ++ header ∷ [])) (said anchor.new units.new.items) self.old self.new result }
        ensures within { result ≤ most }
    {
        match store_of(header / 16, units.len(), most) {
            None => self.restore_fewer(header, units, anchor, most),
            Some(place) => {
                let bits = match units.pop() {
                    Some(bits) => bits,
                    None => unreachable!(),
                };
                let to = before_store(*anchor);
                self.go_to(to.loc, to.clock);
                anchor.set(to);
                self.set_value(Old::Cell(place, long(bits)));
                3
            }
        }
    }
}
