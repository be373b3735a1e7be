//! A field (L:R) of a word (1.3.1): bytes L to R, where position 0 is the sign.
ghost use Rattle.std.specs.Prelude.{◌≡◌, Some, IfSome, ◌+◌, ◌-◌, ◌*◌, ◌/◌, ◌%◌, ◌^◌, ◌<◌, ◌≤◌, ◌&&◌, ◌==◌};
ghost use Rattle.mix_word.specs.Field.{field_between, code_of_field, field_of, field_value_of, put_field_of, field, width_of};

use crate::word::{Sign, Word};
use std::marker::Model;

/// A field (L:R) of a word, 0 <= L <= R <= 5 (1.3.1).
#[derive(Clone, Copy)]
pub struct Field {
    left: u8,
    right: u8,
}

impl Model for Field {
    ghost use Rattle.std.specs.Prelude.{◌≤◌};
    ghost use Rattle.mix_word.specs.Field.{FieldValue, field};

    ghost Value = { FieldValue };

    ghost view = { λ f. field f.left f.right };

    ghost invariant = { λ f. (f.left ≤ f.right) × (f.right ≤ 5) };

    ghost inverse = { λ v. record { left = v.left; right = v.right } };
}

impl Field {
    /// The field from L to R (1.3.1), or none where L is over R, or R over 5.
    pub fn new(left: u8, right: u8) -> Option<Field>
        ensures { result ≡ field_between left right }
    {
        if left <= right && right <= 5 {
            Some(Field { left, right })
        } else {
            None
        }
    }

    /// The field of a code, 8L + R (1.3.1), or none where the code is of no field.
    pub fn of(code: u8) -> Option<Field>
        ensures is { result ≡ field_of code }
        ensures code { IfSome result (λ f. code_of_field f ≡ code) }
    {
        Field::new(code >> 3, code & 7)
    }

    /// The code, 8L + R (1.3.1): 0 to 45.
    pub fn code(self) -> u8
        ensures is { result ≡ code_of_field self }
        ensures bound { result < 46 }
        ensures field { field_of result ≡ Some self }
    {
        8 * self.left + self.right
    }

    /// The whole word, (0:5) (1.3.1).
    pub fn whole() -> Field
        ensures { result ≡ field 0 5 }
    {
        Field { left: 0, right: 5 }
    }

    /// L (1.3.1), 0 to 5, and 0 where the field has the sign.
    pub fn left(self) -> u8
        ensures { result ≡ self.left }
    {
        self.left
    }

    /// R (1.3.1), from L to 5.
    pub fn right(self) -> u8
        ensures { result ≡ self.right }
    {
        self.right
    }

    // Whether it is the whole word.
    fn is_whole(self) -> bool
        ensures { result ≡ (self.left == 0 && self.right == 5) }
    {
        self.left == 0 && self.right == 5
    }

    // How many bits lie below the field's bytes, and how many bits these have.
    fn place(self) -> (u32, u32)
        ensures below { result.0 ≡ 6 * (5 - self.right) }
        ensures bits { result.1 ≡ 6 * width_of self }
        ensures within { result.0 + result.1 ≤ 30 }
    {
        let first = if self.left == 0 { 1 } else { self.left };
        let width = self.right + 1 - first;
        (6 * u32::from(5 - self.right), 6 * u32::from(width))
    }
}

impl Word {
    /// What a load takes (1.3.1): the bytes of a field at the right end of a word, with the sign if L is 0, or else with +.
    // (most instructions take the whole word, of which nothing has to be cut)
    #[inline(always)]
    pub fn field_value(self, f: Field) -> Word
        ensures { result ≡ field_value_of self f }
    {
        if f.is_whole() {
            self
        } else {
            self.bytes_of_field(f)
        }
    }

    #[tactic(auto, using(crate::proofs::FieldLemmas::fields))]
    #[inline(never)]
    fn bytes_of_field(self, f: Field) -> Word
        ensures { result ≡ field_value_of self f }
    {
        let (below, bits) = f.place();
        let sign = if f.left() == 0 {
            self.sign()
        } else {
            Sign::Plus
        };
        Word::of(sign, taken(self.magnitude(), below, bits))
    }

    /// What a store leaves (1.3.1): the word with the rightmost bytes of `v` in the field, and with the sign of `v` if L is 0.
    #[inline(always)]
    pub fn put_field(self, f: Field, v: Word) -> Word
        ensures { result ≡ put_field_of self f v }
    {
        if f.is_whole() {
            v
        } else {
            self.put_bytes_of_field(f, v)
        }
    }

    #[tactic(auto, using(crate::proofs::FieldLemmas::fields))]
    #[inline(never)]
    fn put_bytes_of_field(self, f: Field, v: Word) -> Word
        ensures { result ≡ put_field_of self f v }
    {
        let (below, bits) = f.place();
        let sign = if f.left() == 0 { v.sign() } else { self.sign() };
        Word::of(sign, replaced(self.magnitude(), v.magnitude(), below, bits))
    }
}

// The number that lies in so many bits of `m` above the lowest ones.
#[tactic(auto, using(crate::proofs::FieldLemmas::masks))]
fn taken(m: u32, below: u32, bits: u32) -> u32
    requires within { below + bits ≤ 30 }
    requires bound { m < 2 ^ 30 }
    ensures is { result ≡ m / 2 ^ below % 2 ^ bits }
    ensures bound { result < 2 ^ 30 }
{
    (m >> below) & ((1 << bits) - 1)
}

// `m` with the lowest bits of `v` in place of so many of its own above the lowest ones.
#[tactic(auto, using(crate::proofs::FieldLemmas::masks))]
fn replaced(m: u32, v: u32, below: u32, bits: u32) -> u32
    requires within { below + bits ≤ 30 }
    requires bound { m < 2 ^ 30 }
    ensures is { result ≡ m - m / 2 ^ below % 2 ^ bits * 2 ^ below + v % 2 ^ bits * 2 ^ below }
    ensures bound { result < 2 ^ 30 }
{
    let mask = (1 << bits) - 1;
    (m & !(mask << below)) + ((v & mask) << below)
}
