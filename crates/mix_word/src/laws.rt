//! What follows from the table of operations alone, for the proofs of other crates.
ghost use Rattle.std.specs.Prelude.{◌≡◌, ◌<◌, ◌%◌, ◌↔◌, ℕ, List, None, length, IsTrue};
ghost use Rattle.mix_word.specs.Prelude.{Operation, Named, operation_code, number_of_operation, number_of_pair, is_of_register, decode_of, operation_named, IsNamedBy};

use crate::naming::MAX_LETTERS;

/// A pair (C, F) names an operation (1.3.1) exactly where C is its code, F is its normal F where F tells operations apart, and the
/// pair is no floating one.
pub fn decode_law()
    ensures { (c f : ℕ) (op : Operation) → (decode_of c f ≡ Named op) ↔ IsNamedBy op c f }
{}

/// A pair (C, F) that has an operation's number, and where it is of a register also the place of
/// that register in a row of eight codes, names it (1.3.1).
pub fn number_law()
    ensures { (c f : ℕ) (op : Operation) → number_of_pair (decode_of c f) ≡ number_of_operation op → (IsTrue (is_of_register op) → operation_code op % 8 ≡ c % 8) → decode_of c f ≡ Named op }
{}

/// No text of over `MAX_LETTERS` letters names an operation (1.3.1).
pub fn long_name_law()
    ensures { (name : List ℕ) → MAX_LETTERS < length name → operation_named name ≡ None }
{}
