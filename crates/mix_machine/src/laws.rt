//! What follows from the definitions alone.
ghost use Rattle.std.specs.Prelude.{◌≡◌, ◌≢◌, ◌≤◌, ◌<◌, ◌*◌, ◌↔◌, IsTrue, not, List, Ok, Some, length};
ghost use Rattle.undo_core.specs.Replay.{count_kept, put_back};
ghost use Rattle.mix_word.specs.declared.operation.Operation.TheVariants.{Hlt};
ghost use Rattle.mix_word.specs.declared.decoding.Decoded.TheVariants.{Named};
ghost use Rattle.mix_machine.specs.Prelude.{WorldState, IsWorld, decode_at, does, is_halt_next, kept_values, IsReal, UnitState, put_value, IsPart, mark_of, mark_before, is_same_mark, is_same_unit, is_altered, Change, Step, Old, Part};
ghost use Rattle.mix_machine.specs.KeptCount.{kept_count, most_kept};

use mix_word::decode_law;

/// A change keeps as many old values as the table says, and never more than the most that a change keeps; so the changes of a journal
/// never keep more than that many times their number.
pub fn kept_count_law()
    ensures counted { (w : WorldState) (c : Change) → length (kept_values w c) ≡ kept_count w c }
    ensures most { (w : WorldState) (c : Change) → kept_count w c ≤ most_kept }
    ensures all { (w : WorldState) (cs : List Change) → count_kept does kept_values w cs ≤ most_kept * length cs }
{}

/// A step that is accepted is one of HLT exactly where `World::next_is_halt` held before it.
pub fn halt_law()
    ensures { (w t : WorldState) → IsWorld w → does w Step ≡ Ok t → IsTrue (is_halt_next w) ↔ (decode_at w ≡ Named Hlt) }
{
    decode_law();
}

/// What a change does to the clock, and where a step is done. The clock goes no way but forward, and none but a step moves it; a step is done
/// at a cell; and the state after a change is one of the machine.
pub fn change_law()
    ensures forward { (v w : WorldState) (c : Change) → does v c ≡ Ok w → v.clock ≤ w.clock }
    ensures kept { (v w : WorldState) (c : Change) → c ≢ Step → does v c ≡ Ok w → w.clock ≡ v.clock }
    ensures breaks { (v w : WorldState) → does v Step ≡ Ok w → w.breaks ≡ v.breaks }
    ensures place { (v w : WorldState) → IsWorld v → does v Step ≡ Ok w → v.loc < 4000 }
    ensures world { (v w : WorldState) (c : Change) → IsWorld v → IsReal c → does v c ≡ Ok w → IsWorld w }
{}

/// What the marks of parts say. Values that are put back say the marks of the state before, which is one of the machine; so a part's past is
/// read from what is kept, and nothing has to be put back. A change alters a part exactly where it alters its mark. Two units are the same
/// exactly where they are equal.
pub fn mark_law()
    ensures before { (olds : List Old) (w v : WorldState) (part : Part) → IsWorld w → IsPart part → put_back put_value olds w ≡ Some v → mark_before olds part (mark_of w part) ≡ mark_of v part }
    ensures world { (olds : List Old) (w v : WorldState) → IsWorld w → put_back put_value olds w ≡ Some v → IsWorld v }
    ensures altered { (v w : WorldState) (c : Change) (part : Part) → IsWorld v → IsPart part → does v c ≡ Ok w → is_altered part v w ≡ not (is_same_mark (mark_of v part) (mark_of w part)) }
    ensures same { (u v : UnitState) → IsTrue (is_same_unit u v) ↔ (u ≡ v) }
{}
