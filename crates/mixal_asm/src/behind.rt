//! What stands behind END, which is not read (1.3.2).
ghost use Rattle.std.specs.Prelude.{◌≡◌, ◌<◌, ◌≤◌, ◌+◌, ◌++◌, ◌∷◌, [], length, IfSome, MatchOption, OnOk};
ghost use Rattle.mix_lines.specs.Lines.{lines};
ghost use Rattle.mixal_asm.specs.Diagnose.{after_end_from, behind_from};

use crate::diagnosis::push_warning;
use crate::diagnostic::{Diagnostic, Warning};
use crate::mentions::is_end;
use mix_lines::split_line;
use mix_refused::Memory;
use mixal_text::Survey;

/// Appends a warning of the first line behind END that reads as if it belonged to the program, if a text has one.
pub(crate) fn add_after_end(list: &mut Vec<Diagnostic>, text: &[u8]) -> Result<(), Memory>
    requires { length text.now ≤ 1048576 }
    ensures { OnOk result (list.new.items ≡ list.old.items ++ after_end_from 1 (lines text.now)) }
{
    let mut number = 1;
    let mut rest = text;
    while let Some((line, after)) = first_line(rest) {
        number += 1;
        if is_end(line) {
            return add_behind(list, number, after);
        }
        rest = after;
    }
    Ok(())
}

// The same, of the lines behind END, the first of which has this number.
fn add_behind(list: &mut Vec<Diagnostic>, first: u32, text: &[u8]) -> Result<(), Memory>
    requires { first + length text.now ≤ 1048577 }
    ensures { OnOk result (list.new.items ≡ list.old.items ++ behind_from first (lines text.now)) }
{
    let mut number = first;
    let mut rest = text;
    while let Some((line, after)) = first_line(rest) {
        if matches!(line, [b'%', ..]) {
            return Ok(());
        }
        if Survey::of(line).is_code() {
            return push_warning(list, number, line, Warning::BehindEnd);
        }
        number += 1;
        rest = after;
    }
    Ok(())
}

// The first line of a text, and what follows it.
fn first_line(text: &[u8]) -> Option<(&[u8], &[u8])>
    ensures line { MatchOption result
        (lines text.now ≡ [])
        (λ next. lines text.now ≡ next.0.now ∷ lines next.1.now) }
    ensures shorter { IfSome result (λ next. length next.1.now < length text.now) }
{
    if text.is_empty() {
        return None;
    }
    Some(split_line(text))
}
