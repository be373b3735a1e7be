//! What follows from the definitions alone.
ghost use Rattle.std.specs.Prelude.{◌≡◌, ◌≤◌, ◌+◌, ◌++◌, ◌↔◌, ℕ, [], List, length, IsSome};
ghost use Rattle.undo_core.specs.Replay.{replay};
ghost use Rattle.mix_word.specs.Word.{WordValue};
ghost use Rattle.mix_machine.specs.Prelude.{WorldState, IsWorld, does, loaded, UnitsState};
ghost use Rattle.mix_session.specs.Prelude.{alterations, tally_at, tally_of_all, lines_text, columns_text, Timeline, back_by, forth_by, world_of};
ghost use Rattle.mix_session.specs.Sums.{sum_of_cells, steps_done, AreReal};

use mix_machine::{change_law, mark_law};

/// Changes that are taken back and done again leave the timeline as it was, and what is taken back is lost from neither list.
pub fn back_and_forth_law()
    ensures same { (t : Timeline) (n : ℕ) → n ≤ length t.changes → forth_by (back_by t n) n ≡ t }
    ensures all { (t : Timeline) (n : ℕ) → (back_by t n).changes ++ (back_by t n).ahead ≡ t.changes ++ t.ahead }
{}

/// What the columns of `show counts` add up to, of changes that can be done one after the other from the first state. The number of the last
/// line is how many of the changes done are steps, and its time how far the clock has gone since the first state; from a machine as it is
/// loaded, that is the clock. Where the first state is one of the machine, and the places that changes name are those of cells, the
/// numbers and the times of all cells sum to them, so each step is counted at one cell.
pub fn counts_law()
    ensures steps { (t : Timeline) → (tally_of_all t).count ≡ steps_done t }
    ensures clock { (t : Timeline) → IsSome (replay does t.first t.changes) → t.first.clock + (tally_of_all t).time ≡ (world_of t).clock }
    ensures loaded { (t : Timeline) (words : List (ℕ × WordValue)) (start : ℕ) (units : UnitsState) → t.first ≡ loaded words start units → IsSome (replay does t.first t.changes) → (tally_of_all t).time ≡ (world_of t).clock }
    ensures counts { (t : Timeline) → IsWorld t.first → AreReal t → IsSome (replay does t.first t.changes) → sum_of_cells (λ p. (tally_at t p).count) ≡ (tally_of_all t).count }
    ensures times { (t : Timeline) → IsWorld t.first → AreReal t → IsSome (replay does t.first t.changes) → sum_of_cells (λ p. (tally_at t p).time) ≡ (tally_of_all t).time }
{
    change_law();
}

/// Two machines are the same exactly where no part differs between them, and where no item tells a difference, on lines of their own or on the
/// line of a change.
pub fn differences_law()
    ensures parts { (v w : WorldState) → IsWorld v → IsWorld w → (alterations v w ≡ []) ↔ (v ≡ w) }
    ensures lines { (v w : WorldState) → IsWorld v → IsWorld w → (lines_text v w (alterations v w) ≡ []) ↔ (v ≡ w) }
    ensures columns { (v w : WorldState) → IsWorld v → IsWorld w → (columns_text v w (alterations v w) ≡ []) ↔ (v ≡ w) }
{
    mark_law();
}
