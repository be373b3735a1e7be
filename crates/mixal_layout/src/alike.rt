//! Whether two lines say the same.
ghost use Rattle.std.specs.Prelude.{◌≡◌, IfOk};
ghost use Rattle.mixal_text.specs.Line.{line_of};
ghost use Rattle.mixal_layout.specs.Alike.{Alike, IfTrue, written};

use mix_lines::is_blank;
use mixal_text::{Label, Line, Op, read_line};
use std::alloc::{AllocError, Global};

/// Whether the assembler reads two lines as the same LOC, OP and ADDRESS, and they differ in nothing but blanks.
#[tactic(auto, using(crate::proofs::AlikeLemmas::alike_same))]
pub(crate) fn are_alike(alloc: Global, first: &[u8], second: &[u8]) -> Result<bool, AllocError>
    ensures { IfOk result (IfTrue (Alike first.now second.now)) }
{
    if first == second {
        return Ok(true);
    }
    if !reads_same(first, second) {
        return Ok(false);
    }
    Ok(written(alloc, first)?.as_slice() == written(alloc, second)?.as_slice())
}

fn reads_same(first: &[u8], second: &[u8]) -> bool
    ensures { IfTrue (line_of second.now ≡ line_of first.now) result }
{
    match (read_line(first), read_line(second)) {
        (
            Ok(Line::Code { loc, op, address }),
            Ok(
                Line::Code {
                    loc: other_loc,
                    op: other_op,
                    address: other_address,
                },
            ),
        ) => {
            is_same_loc(&loc, &other_loc) && is_same_op(op, other_op) && address == other_address
        }
        _ => false,
    }
}

fn is_same_loc(first: &Option<Label>, second: &Option<Label>) -> bool
    ensures { IfTrue (second.now ≡ first.now) result }
{
    match (first, second) {
        (None, None) => true,
        (Some(Label::Name(first)), Some(Label::Name(second))) => first.name() == second.name(),
        (Some(Label::Local(first)), Some(Label::Local(second))) => first == second,
        _ => false,
    }
}

fn is_same_op(first: Op, second: Op) -> bool
    ensures { IfTrue (second ≡ first) result }
{
    match first {
        Op::Machine { code, f } => match second {
            Op::Machine { code: c, f: g } => code == c && f == g,
            _ => false,
        },
        Op::Equ => matches!(second, Op::Equ),
        Op::Orig => matches!(second, Op::Orig),
        Op::Con => matches!(second, Op::Con),
        Op::Alf(word) => match second {
            Op::Alf(other) => word == other,
            _ => false,
        },
        Op::End => matches!(second, Op::End),
    }
}

// The bytes of a line that are no blanks.
fn written(alloc: Global, line: &[u8]) -> Result<Vec<u8>, AllocError>
    ensures { IfOk result (λ bytes. bytes.items ≡ written line.now) }
{
    let mut bytes = Vec::from_slice(alloc, line)?;
    retain_written(&mut bytes);
    Ok(bytes)
}

fn retain_written(bytes: &mut Vec<u8>)
    ensures { bytes.new.items ≡ written bytes.old.items }
{
    bytes.retain(|byte| !is_blank(*byte));
}
