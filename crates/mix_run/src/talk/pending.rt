//! The lines of an input that are whole so far, and what is pending.

ghost use Rattle.std.specs.Prelude.{◌≡◌, ◌≤◌, ◌++◌, IfOk, OnOk, false, true, length, take, drop};
ghost use Rattle.std.specs.List.{list_any};
ghost use Rattle.mix_lines.specs.Lines.{is_line_feed};
ghost use Rattle.mix_run.specs.Talk.{is_whole};

use mix_refused::Memory;
use std::alloc::Global;
use std::mem;

// How many bytes the whole lines of a text take: up to its last line feed.
fn whole_len(text: &[u8]) -> usize
    ensures bound { result ≤ length text.now }
    ensures whole { is_whole (take result text.now) ≡ true }
    ensures rest { list_any is_line_feed (drop result text.now) ≡ false }
{
    let mut len = text.len();
    while len > 0 && text[len - 1] != b'\n' {
        len -= 1;
    }
    len
}

// The whole lines of a text, and what stands after them.
fn split_whole(text: &[u8]) -> (&[u8], &[u8])
    ensures parts { text.now ≡ result.0.now ++ result.1.now }
    ensures whole { is_whole result.0.now ≡ true }
    ensures rest { list_any is_line_feed result.1.now ≡ false }
{
    text.split_at(whole_len(text))
}

// Appends some bytes.
fn keep(pending: &mut Vec<u8>, bytes: &[u8]) -> Result<(), Memory>
    ensures { OnOk result (pending.new.items ≡ pending.old.items ++ bytes.now) }
{
    pending.extend_from_slice(bytes)?;
    Ok(())
}

/// Some bytes more, after those that are pending: the lines that are whole now are taken, and what stands after them is left.
pub(super) fn take_lines(
    alloc: Global,
    pending: &mut Vec<u8>,
    part: &[u8],
) -> Result<Vec<u8>, Memory>
    requires { list_any is_line_feed pending.old.items ≡ false }
    ensures parts { IfOk result (λ text. pending.old.items ++ part.now ≡ text.items ++ pending.new.items) }
    ensures whole { IfOk result (λ text. is_whole text.items ≡ true) }
    ensures rest { IfOk result (λ _. list_any is_line_feed pending.new.items ≡ false) }
{
    let (whole, rest) = split_whole(part);
    if whole.is_empty() {
        keep(pending, rest)?;
        return Ok(Vec::new(alloc));
    }
    let mut text = mem::replace(pending, Vec::new(alloc));
    keep(&mut text, whole)?;
    keep(pending, rest)?;
    Ok(text)
}
