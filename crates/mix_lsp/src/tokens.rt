//! What the parts of a text are: labels, operations, names, numbers, literals, characters, remarks.

ghost use Rattle.std.specs.Prelude.{◌≡◌, ◌≤◌, None, length};
ghost use Rattle.mix_lsp.specs.Tokens.{AreInOrder, is_behind};

use crate::completion::is_alf;
use crate::finder::Finder;
use crate::look::Open;
use mix_lines::{all_digits, is_comment, line_text};
use mix_refused::Memory;
use mixal_asm::MAX_SOURCE_BYTES;
use mixal_layout::after_blanks;
use mixal_text::{Part, Span, part_span};
use serde_json::{Value, json};
use std::alloc::Global;
use std::marker::Model;

/// What a part of a line is, in the order in which `initialize` names them.
#[derive(Clone, Copy)]
pub(crate) enum TokenKind {
    Label,
    Operation,
    /// A symbol in ADDRESS, or dB or dF.
    Name,
    Number,
    /// All of a literal, with its equals signs.
    Literal,
    /// The characters of an ALF, with their quotation marks.
    Characters,
    Remark,
}

/// Some units of a line of the protocol, and what they are.
#[derive(Clone, Copy)]
pub(crate) struct Token {
    line: u64,
    from: u64,
    to: u64,
    kind: TokenKind,
}

/// Tokens that follow one another.
#[derive(Drop)]
struct Row {
    list: Vec<Token>,
    last: Option<Token>,
}

impl Model for Row {
    ghost use Rattle.std.specs.Prelude.{List};
    ghost use Rattle.mix_lsp.specs.Tokens.{Ends};
    ghost use Rattle.mix_lsp.specs.declared.tokens.Token.{Token};

    ghost Value = { List Token };

    ghost view = { λ r. r.list.items };

    ghost invariant = { λ r. Ends r.list.items r.last };
}

impl Row {
    #[tactic(auto, using(crate::proofs::TokenLemmas::adding))]
    fn new(alloc: Global) -> Row {
        Row {
            list: Vec::new(alloc),
            last: None,
        }
    }

    // One token more, if it has a unit or more and begins behind the last one.
    #[tactic(auto, using(crate::proofs::TokenLemmas::adding))]
    fn push(&mut self, token: Token) -> Result<(), Memory> {
        if is_behind(self.last, token) {
            self.list.push(token)?;
            self.last = Some(token);
        }
        Ok(())
    }

    fn list(&self) -> &[Token]
        ensures { AreInOrder None result.now }
    {
        self.list.as_slice()
    }
}

fn is_behind(last: Option<Token>, token: Token) -> bool
    ensures { result ≡ is_behind last token }
{
    let begins_behind = match last {
        Some(last) => last.line < token.line || last.line == token.line && last.to <= token.from,
        None => true,
    };
    token.from < token.to && begins_behind
}

/// The parts of a text so far.
#[derive(Drop)]
struct Tokens<'t> {
    finder: Finder<'t>,
    row: Row,
}

impl<'t> Open<'t> {
    /// The parts of all lines, by five numbers each; none of a text that is longer than a source
    /// may be.
    pub(crate) fn tokens(&self) -> Result<Value, Memory> {
        let mut tokens = Tokens {
            finder: self.finder(),
            row: Row::new(self.alloc),
        };
        if self.text.len() <= MAX_SOURCE_BYTES {
            let mut number: u32 = 0;
            for line in self.text.split(|byte| *byte == b'\n') {
                tokens.add_line(number, line_text(line))?;
                number = number.saturating_add(1);
            }
        }
        // Its line, and its first unit, after those of the last one; how many units, its kind, and no
        // modifier.
        let mut data = Vec::new(self.alloc);
        let (mut line, mut start) = (0, 0);
        for token in tokens.row.list() {
            if token.line != line {
                start = 0;
            }
            data.push(Value::from(token.line.saturating_sub(line)))?;
            data.push(Value::from(token.from.saturating_sub(start)))?;
            data.push(Value::from(token.to.saturating_sub(token.from)))?;
            data.push(Value::from(token.kind as u64))?;
            data.push(Value::from(0u64))?;
            (line, start) = (token.line, token.from);
        }
        let body = json!(in self.alloc; {"data": data})?;
        Ok(body)
    }
}

impl<'t> Tokens<'t> {
    fn add_line(&mut self, number: u32, line: &[u8]) -> Result<(), Memory> {
        let end = line.len();
        if is_comment(line) {
            return self.add(number, Span { from: 0, to: end }, TokenKind::Remark);
        }
        let operand = operand_span(line);
        self.add(number, part_span(line, Part::Label), TokenKind::Label)?;
        self.add(
            number,
            part_span(line, Part::Operation),
            TokenKind::Operation,
        )?;
        if is_alf(line) {
            self.add(number, operand, TokenKind::Characters)?;
        } else {
            self.add_address(number, operand.from, &line[operand.from..operand.to])?;
        }
        let remark = after_blanks(&line[operand.to..]);
        let from = end.saturating_sub(remark.len());
        self.add(number, Span { from, to: end }, TokenKind::Remark)
    }

    // A literal with which an ADDRESS begins, and the runs of letters and digits behind it.
    fn add_address(&mut self, number: u32, start: usize, address: &[u8]) -> Result<(), Memory> {
        let length = literal_length(address).min(address.len());
        let mut from = start.saturating_add(length);
        self.add(
            number,
            Span {
                from: start,
                to: from,
            },
            TokenKind::Literal,
        )?;
        for run in address[length..].split(|byte| !byte.is_ascii_alphanumeric()) {
            let to = from.saturating_add(run.len());
            let kind = if all_digits(run) {
                TokenKind::Number
            } else {
                TokenKind::Name
            };
            self.add(number, Span { from, to }, kind)?;
            from = to.saturating_add(1);
        }
        Ok(())
    }

    // Some bytes of a line, if they are in one line of the protocol.
    fn add(&mut self, number: u32, at: Span, kind: TokenKind) -> Result<(), Memory> {
        let from = self.finder.place(number, at.from);
        let to = self.finder.place(number, at.to);
        if from.line == to.line {
            self.row.push(Token {
                line: from.line,
                from: from.character,
                to: to.character,
                kind,
            })?;
        }
        Ok(())
    }
}

// The bytes of ADDRESS, those of ALF with their quotation marks.
fn operand_span(line: &[u8]) -> Span
    ensures order { result.from ≤ result.to }
    ensures within { result.to ≤ length line.now }
{
    let at = part_span(line, Part::Address);
    if is_alf(line) && line[..at.from].ends_with(b"\"") {
        Span {
            from: at.from.saturating_sub(1),
            to: line.len().min(at.to.saturating_add(1)),
        }
    } else {
        at
    }
}

/// How many bytes of an ADDRESS are a literal with which it begins.
pub(crate) fn literal_length(address: &[u8]) -> usize {
    match address {
        [b'=', rest @ ..] => match rest.iter().position(|byte| *byte == b'=') {
            Some(end) => end.saturating_add(2),
            None => address.len(),
        },
        _ => 0,
    }
}
