//! Lines (1.3.2): LOC, OP and ADDRESS, parted by blanks.
ghost use Rattle.std.specs.Prelude.{◌≡◌, IfErr, IfOk, MatchResult, Ok, Err, is_some, length};
ghost use Rattle.mixal_text.specs.Words.{first_word};
ghost use Rattle.mixal_text.specs.Misread.{IsWithin};
ghost use Rattle.mixal_text.specs.Op.{address_after, are_characters, op_of};
ghost use Rattle.mixal_text.specs.Line.{HasBytes, IsOfBytes, is_end_op, loc_of, loc_of_line, op_of_line, part_at, with_address, line_from, line_of, value_of_line};

use crate::alf::alf_word;
use crate::fault::TextFault;
use crate::label::Label;
use crate::misread::Misread;
use crate::op::{Mnemonic, Op, is_without_operand};
use crate::parts::{Part, part_misread};
use crate::words::{are_blanks, skip_blanks, split_word};
use mix_lines::is_comment;
use mix_word::{Operation, code_of};

/// What a line says (1.3.2): nothing, or LOC, OP and ADDRESS. ADDRESS is a slice of the line, and empty after ALF.
#[derive(Drop)]
pub enum Line<'a> {
    Remark,
    Code {
        loc: Option<Label>,
        op: Op,
        address: &'a [u8],
    },
}

/// Reads a line without its line end (1.3.2). Spaces and tabs are blanks; a line that begins with an asterisk or has
/// nothing but blanks is a remark, and so is what stands after ADDRESS. The first fault is the answer: of LOC A1 for a
/// byte that is no MIX character, and A3 for what is no label; of OP A1, and A2 for a name of no operation; of ADDRESS A1,
/// where ALF has A12 before it. The bytes at fault are that character, or else the whole part.
#[tactic(auto, unfolding(crate::specs::Line::line_of))]
pub fn read_line(text: &[u8]) -> Result<Line<'_>, Misread>
    ensures line { MatchResult result
        (λ line. line_of text.now ≡ Ok (value_of_line line))
        (λ misread. line_of text.now ≡ Err misread) }
    ensures bytes { IfOk result HasBytes }
    ensures within { IfErr result (λ misread. IsWithin 0 (length text.now) misread.at) }
{
    if is_comment(text) || are_blanks(text) {
        return Ok(Line::Remark);
    }
    let (label, rest) = split_word(text);
    let loc = part_at(text, Part::Label, read_loc(label))?;
    let (name, rest) = split_word(skip_blanks(rest));
    let mnemonic = part_at(text, Part::Operation, read_op(name))?;
    part_at(text, Part::Address, code_line(loc, mnemonic, rest))
}

// A part of a line that was read, or its fault at the bytes of that part.
fn part_at<T: Drop>(line: &[u8], part: Part, read: Result<T, TextFault>) -> Result<T, Misread>
    ensures is { result ≡ part_at line.now part read }
    ensures within { IfErr result (λ misread. IsWithin 0 (length line.now) misread.at) }
{
    match read {
        Ok(value) => Ok(value),
        Err(fault) => Err(part_misread(line, part, fault)),
    }
}

/// The LOC of a line, whatever follows it (1.3.2). A1 is a byte that is no MIX character, and A3 what is no label.
pub fn line_loc(text: &[u8]) -> Result<Option<Label>, TextFault>
    ensures loc { result ≡ loc_of_line text.now }
{
    read_loc(split_word(text).0)
}

/// The OP of a line, whatever stands around it (1.3.2). A1 is a byte that is no MIX character, and A2 a name of no operation.
pub fn line_op(text: &[u8]) -> Result<Mnemonic, TextFault>
    ensures op { result ≡ op_of_line text.now }
{
    read_op(first_word(split_word(text).1))
}

/// Whether the OP of a line is END, whatever stands around it (1.3.2). It takes less time than `line_op`: no name of another length,
/// or with another first letter, has to be looked for among the operations.
#[tactic(auto, unfolding(crate::specs::Op::op_of, crate::specs::Op::mnemonic_of))]
pub fn line_is_end(text: &[u8]) -> bool
    ensures end { result ≡ is_end_op (op_of_line text.now) }
{
    match first_word(split_word(text).1) {
        name @ [first, _, _] if first.to_ascii_uppercase() == b'E' => {
            matches!(read_op(name), Ok(Mnemonic::End))
        }
        _ => false,
    }
}

#[tactic(auto, unfolding(crate::specs::Line::loc_of))]
pub(crate) fn read_loc(text: &[u8]) -> Result<Option<Label>, TextFault>
    ensures { result ≡ loc_of text.now }
{
    if text.is_empty() {
        return Ok(None);
    }
    if !are_characters(text) {
        return Err(TextFault::BadByte);
    }
    match Label::of(text) {
        Some(label) => Ok(Some(label)),
        None => Err(TextFault::BadSymbol),
    }
}

#[tactic(auto, unfolding(crate::specs::Op::op_of))]
pub(crate) fn read_op(name: &[u8]) -> Result<Mnemonic, TextFault>
    ensures { result ≡ op_of name.now }
{
    if are_characters(name) {
        Mnemonic::of(name).ok_or(TextFault::NoSuchOperation)
    } else {
        Err(TextFault::BadByte)
    }
}

#[tactic(auto, unfolding(crate::specs::Line::line_from))]
fn code_line(loc: Option<Label>, mnemonic: Mnemonic, rest: &[u8]) -> Result<Line<'_>, TextFault>
    ensures line { MatchResult result
        (λ line. line_from loc mnemonic rest.now ≡ Ok (value_of_line line))
        (λ fault. line_from loc mnemonic rest.now ≡ Err fault) }
    ensures bytes { IfOk result HasBytes }
{
    match mnemonic {
        Mnemonic::Machine(operation) => {
            let op = Op::Machine {
                code: operation.code(),
                f: operation.normal_f(),
            };
            with_address(loc, op, address_after(operation, rest))
        }
        Mnemonic::Equ => with_address(loc, Op::Equ, first_word(rest)),
        Mnemonic::Orig => with_address(loc, Op::Orig, first_word(rest)),
        Mnemonic::Con => with_address(loc, Op::Con, first_word(rest)),
        Mnemonic::End => with_address(loc, Op::End, first_word(rest)),
        Mnemonic::Alf => {
            let word = alf_word(rest)?;
            Ok(Line::Code {
                loc,
                op: Op::Alf(word),
                address: &[],
            })
        }
    }
}

fn with_address(loc: Option<Label>, op: Op, address: &[u8]) -> Result<Line<'_>, TextFault>
    requires { IsOfBytes op }
    ensures line { MatchResult result
        (λ line. with_address loc op address.now ≡ Ok (value_of_line line))
        (λ fault. with_address loc op address.now ≡ Err fault) }
    ensures bytes { IfOk result HasBytes }
{
    if are_characters(address) {
        Ok(Line::Code { loc, op, address })
    } else {
        Err(TextFault::BadByte)
    }
}

pub(crate) fn address_after(operation: Operation, rest: &[u8]) -> &[u8]
    ensures { result.now ≡ address_after operation rest.now }
{
    match first_word(rest) {
        [byte, ..] if is_without_operand(operation) && byte.is_ascii_alphabetic() => &[],
        address => address,
    }
}

pub(crate) fn first_word(text: &[u8]) -> &[u8]
    ensures { result.now ≡ first_word text.now }
{
    split_word(skip_blanks(text)).0
}

fn are_characters(text: &[u8]) -> bool
    ensures { result ≡ are_characters text.now }
{
    text.iter().all(|byte| code_of(*byte).is_some())
}
