//! A source in columns.
ghost use Rattle.std.specs.Prelude.{IfOk};
ghost use Rattle.mix_lines.specs.Lines.{lines};
ghost use Rattle.mixal_layout.specs.Alike.{AllAlike, IfTrue};

use crate::alike::are_alike;
use crate::line::laid;
use mix_lines::{is_comment, line_text, split_line, split_whole_line};
use mixal_text::line_is_end;
use std::alloc::{AllocError, Global};

/// A source with LOC, OP, ADDRESS and remarks at the columns 1, 9, 14 and 27 (1.3.2), or one blank behind what is before them;
/// ADDRESS is five columns behind OP. Line ends, comments, blank lines, lines at fault and what follows END stay as they are,
/// and so does what follows an ALF without quotation marks. Each line says what it said, and only blanks are put in and taken
/// away: that is looked at, line by line, and a source of which it is not so stays as it is. Only out of memory refuses it.
#[tactic(auto, using(crate::proofs::AlikeLemmas::all_same))]
pub fn lay_out(alloc: Global, source: &[u8]) -> Result<Vec<u8>, AllocError>
    ensures alike { IfOk result (λ text. AllAlike (lines source.now) (lines text.items)) }
{
    let text = laid_out(alloc, source)?;
    if all_alike(alloc, source, text.as_slice())? {
        Ok(text)
    } else {
        Vec::from_slice(alloc, source)
    }
}

fn laid_out(alloc: Global, source: &[u8]) -> Result<Vec<u8>, AllocError> {
    let mut text = Vec::new(alloc);
    let mut rest = source;
    let mut ended = false;
    while !rest.is_empty() && !ended {
        let (line, after) = split_whole_line(rest);
        let words = line_text(line);
        text.extend_from_slice(laid(alloc, words)?.as_slice())?;
        text.extend_from_slice(line.get(words.len()..).unwrap_or(&[]))?;
        ended = !is_comment(words) && line_is_end(words);
        rest = after;
    }
    text.extend_from_slice(rest)?;
    Ok(text)
}

#[tactic(auto, using(crate::proofs::AlikeLemmas::next_alike))]
fn all_alike(alloc: Global, source: &[u8], text: &[u8]) -> Result<bool, AllocError>
    ensures { IfOk result (IfTrue (AllAlike (lines source.now) (lines text.now))) }
{
    let mut first = source;
    let mut second = text;
    while !first.is_empty() {
        if second.is_empty() {
            return Ok(false);
        }
        let (old, after) = split_line(first);
        let (new, behind) = split_line(second);
        if !are_alike(alloc, old, new)? {
            return Ok(false);
        }
        first = after;
        second = behind;
    }
    Ok(second.is_empty())
}
