//! Cells that stand one after the other, packed as one row.
ghost use Rattle.std.specs.Prelude.{◌≡◌, ◌+◌, ◌*◌, ◌≤◌, ◌++◌, length, vec_len, vec_capacity, MatchOption};
ghost use Rattle.mix_machine.specs.Prelude.{Anchor, said, cell_values, IsRow};

use crate::pack::kind::Kind;
use crate::pack::parts::long_bits;
use mix_word::Word;
use std::mem;

/// Appends cells that hold these words, from a place on.
#[inline(never)]
pub(crate) fn append_row(place: u16, words: &[Word], units: &mut Vec<u32>)
    requires cells { place + length words.now ≤ 4000 }
    requires room { vec_len units.old + 3 * length words.now ≤ vec_capacity units.old }
    ensures said { (a : Anchor) → said a units.new.items ≡ said a units.old.items ++ cell_values place words.now }
    ensures len { vec_len units.new ≤ vec_len units.old + 3 * length words.now }
    ensures capacity { vec_capacity units.new ≡ vec_capacity units.old }
{
    let count = words.len();
    if count == 0 {
        return;
    }
    // (a list that nothing else can reach, so that the compiler need not read its place and length again for each word)
    let alloc = *units.allocator();
    let mut list = mem::replace(units, Vec::new(alloc));
    for i in 0..count {
        list.push_reserved(long_bits(words[i]));
    }
    let payload = count as u32 * 4096 + (u32::from(place) + count as u32 - 1);
    list.push_reserved(Kind::Row.header(payload));
    *units = list;
}

/// The place of the first cell of a row of two cells or more and how many cells it has, where its header, the units before it and the most values that may be taken off
/// let it be taken off at once.
#[inline(always)]
pub(crate) fn row_of(header: u32, before: usize, most: usize) -> Option<(usize, usize)>
    ensures row { MatchOption result (Unit {0}) (λ r. IsRow header r.0 r.1) }
    ensures within { MatchOption result (Unit {0}) (λ r. (r.1 ≤ before) × (r.1 ≤ most)) }
{
    let payload = header / 16;
    let count = (payload / 4096) as usize;
    let end = (payload % 4096) as usize + 1;
    if header % 16 != 3 || count < 2 || count > end || end > 4000 {
        return None;
    }
    if count > before || count > most {
        return None;
    }
    Some((end - count, count))
}
