//! What each pair (C, F) names, as one number (1.3.1): a table of all 4,096 pairs.
ghost use Rattle.std.specs.Prelude.{◌≡◌, length};
ghost use Rattle.mix_word.specs.Prelude.{parts_of, decode_of, number_of_pair, IsPairTable};

use crate::word::Word;

impl Word {
    /// The number of what C and F of an instruction name (1.3.1), 0 to 46. Each operation has one,
    /// whatever its register. Those that a run looks at before their step have the last ones, from
    /// 40 on; 46 is that of a pair that names none.
    #[inline(always)]
    #[tactic(auto, using(crate::proofs::PairLemmas::code_in_pair, crate::proofs::PairLemmas::f_in_pair))]
    pub fn pair_number(self) -> u8
        ensures { result ≡ number_of_pair (decode_of (parts_of self).code (parts_of self).f) }
    {
        pairs()[(self.magnitude() % 4096) as usize]
    }
}

// The numbers, at the place that the last two bytes of a word give, F and C.
#[inline(always)]
fn pairs() -> &'static [u8]
    ensures is { IsPairTable result.now }
    ensures all { length result.now ≡ 4096 }
{
    PAIRS.as_flattened()
}

// A row for each F, with a number for each C: those of F = 10 to 63 are the same.

#[rattlefmt::skip]
const F0: [u8; 64] = [
    0, 1, 2, 29, 30, 40, 31, 37, 3, 3, 3, 3, 3, 3, 3, 3,
    4, 4, 4, 4, 4, 4, 4, 4, 5, 5, 5, 5, 5, 5, 5, 5,
    6, 7, 38, 43, 44, 45, 39, 13, 23, 23, 23, 23, 23, 23, 23, 23,
    8, 8, 8, 8, 8, 8, 8, 8, 12, 12, 12, 12, 12, 12, 12, 12,
];

#[rattlefmt::skip]
const F1: [u8; 64] = [
    0, 1, 2, 29, 30, 41, 32, 37, 3, 3, 3, 3, 3, 3, 3, 3,
    4, 4, 4, 4, 4, 4, 4, 4, 5, 5, 5, 5, 5, 5, 5, 5,
    6, 7, 38, 43, 44, 45, 39, 14, 24, 24, 24, 24, 24, 24, 24, 24,
    9, 9, 9, 9, 9, 9, 9, 9, 12, 12, 12, 12, 12, 12, 12, 12,
];

#[rattlefmt::skip]
const F2: [u8; 64] = [
    0, 1, 2, 29, 30, 42, 33, 37, 3, 3, 3, 3, 3, 3, 3, 3,
    4, 4, 4, 4, 4, 4, 4, 4, 5, 5, 5, 5, 5, 5, 5, 5,
    6, 7, 38, 43, 44, 45, 39, 15, 25, 25, 25, 25, 25, 25, 25, 25,
    10, 10, 10, 10, 10, 10, 10, 10, 12, 12, 12, 12, 12, 12, 12, 12,
];

#[rattlefmt::skip]
const F3: [u8; 64] = [
    0, 1, 2, 29, 30, 46, 34, 37, 3, 3, 3, 3, 3, 3, 3, 3,
    4, 4, 4, 4, 4, 4, 4, 4, 5, 5, 5, 5, 5, 5, 5, 5,
    6, 7, 38, 43, 44, 45, 39, 16, 26, 26, 26, 26, 26, 26, 26, 26,
    11, 11, 11, 11, 11, 11, 11, 11, 12, 12, 12, 12, 12, 12, 12, 12,
];

#[rattlefmt::skip]
const F4: [u8; 64] = [
    0, 1, 2, 29, 30, 46, 35, 37, 3, 3, 3, 3, 3, 3, 3, 3,
    4, 4, 4, 4, 4, 4, 4, 4, 5, 5, 5, 5, 5, 5, 5, 5,
    6, 7, 38, 43, 44, 45, 39, 17, 27, 27, 27, 27, 27, 27, 27, 27,
    46, 46, 46, 46, 46, 46, 46, 46, 12, 12, 12, 12, 12, 12, 12, 12,
];

#[rattlefmt::skip]
const F5: [u8; 64] = [
    0, 1, 2, 29, 30, 46, 36, 37, 3, 3, 3, 3, 3, 3, 3, 3,
    4, 4, 4, 4, 4, 4, 4, 4, 5, 5, 5, 5, 5, 5, 5, 5,
    6, 7, 38, 43, 44, 45, 39, 18, 28, 28, 28, 28, 28, 28, 28, 28,
    46, 46, 46, 46, 46, 46, 46, 46, 12, 12, 12, 12, 12, 12, 12, 12,
];

#[rattlefmt::skip]
const F6: [u8; 64] = [
    0, 46, 46, 46, 46, 46, 46, 37, 3, 3, 3, 3, 3, 3, 3, 3,
    4, 4, 4, 4, 4, 4, 4, 4, 5, 5, 5, 5, 5, 5, 5, 5,
    6, 7, 38, 43, 44, 45, 39, 19, 46, 46, 46, 46, 46, 46, 46, 46,
    46, 46, 46, 46, 46, 46, 46, 46, 46, 12, 12, 12, 12, 12, 12, 12,
];

#[rattlefmt::skip]
const F7: [u8; 64] = [
    0, 1, 2, 29, 30, 46, 46, 37, 3, 3, 3, 3, 3, 3, 3, 3,
    4, 4, 4, 4, 4, 4, 4, 4, 5, 5, 5, 5, 5, 5, 5, 5,
    6, 7, 38, 43, 44, 45, 39, 20, 46, 46, 46, 46, 46, 46, 46, 46,
    46, 46, 46, 46, 46, 46, 46, 46, 12, 12, 12, 12, 12, 12, 12, 12,
];

#[rattlefmt::skip]
const F8: [u8; 64] = [
    0, 1, 2, 29, 30, 46, 46, 37, 3, 3, 3, 3, 3, 3, 3, 3,
    4, 4, 4, 4, 4, 4, 4, 4, 5, 5, 5, 5, 5, 5, 5, 5,
    6, 7, 38, 43, 44, 45, 39, 21, 46, 46, 46, 46, 46, 46, 46, 46,
    46, 46, 46, 46, 46, 46, 46, 46, 12, 12, 12, 12, 12, 12, 12, 12,
];

#[rattlefmt::skip]
const F9: [u8; 64] = [
    0, 1, 2, 29, 30, 46, 46, 37, 3, 3, 3, 3, 3, 3, 3, 3,
    4, 4, 4, 4, 4, 4, 4, 4, 5, 5, 5, 5, 5, 5, 5, 5,
    6, 7, 38, 43, 44, 45, 39, 22, 46, 46, 46, 46, 46, 46, 46, 46,
    46, 46, 46, 46, 46, 46, 46, 46, 12, 12, 12, 12, 12, 12, 12, 12,
];

#[rattlefmt::skip]
const OTHER: [u8; 64] = [
    0, 1, 2, 29, 30, 46, 46, 37, 3, 3, 3, 3, 3, 3, 3, 3,
    4, 4, 4, 4, 4, 4, 4, 4, 5, 5, 5, 5, 5, 5, 5, 5,
    6, 7, 38, 43, 44, 45, 39, 46, 46, 46, 46, 46, 46, 46, 46, 46,
    46, 46, 46, 46, 46, 46, 46, 46, 12, 12, 12, 12, 12, 12, 12, 12,
];

#[rattlefmt::skip]
static PAIRS: [[u8; 64]; 64] = [
    F0, F1, F2, F3, F4, F5, F6, F7, F8, F9,
    OTHER, OTHER, OTHER, OTHER, OTHER, OTHER, OTHER, OTHER, OTHER,
    OTHER, OTHER, OTHER, OTHER, OTHER, OTHER, OTHER, OTHER, OTHER,
    OTHER, OTHER, OTHER, OTHER, OTHER, OTHER, OTHER, OTHER, OTHER,
    OTHER, OTHER, OTHER, OTHER, OTHER, OTHER, OTHER, OTHER, OTHER,
    OTHER, OTHER, OTHER, OTHER, OTHER, OTHER, OTHER, OTHER, OTHER,
    OTHER, OTHER, OTHER, OTHER, OTHER, OTHER, OTHER, OTHER, OTHER,
];
