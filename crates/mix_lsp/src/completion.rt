//! What completes the word that is being written.

use crate::look::Open;
use crate::mnemonic::{does, name_of};
use crate::names::{defines, name_text};
use crate::place::Spot;
use mix_lines::is_comment;
use mix_refused::Memory;
use mix_word::{Decoded, decode};
use mixal_asm::Name;
use mixal_text::{Mnemonic, Part, line_op, part_span};
use serde_json::{Value, json};
use std::alloc::Global;

impl<'t> Open<'t> {
    /// Operations in the place of OP, symbols in that of ADDRESS, and nothing elsewhere.
    pub(crate) fn completion(&self, at: Spot) -> Result<Value, Memory> {
        let line = self.line_at(at.line);
        let mut list = Vec::new(self.alloc);
        match part_written(&line[..line.len().min(at.byte as usize)]) {
            Some(Part::Operation) => add_operations(self.alloc, &mut list)?,
            Some(Part::Address) => self.add_symbols(&mut list)?,
            _ => {}
        }
        Ok(Value::Array(list))
    }

    // The symbols that the text defines; a dH is none.
    fn add_symbols(&self, list: &mut Vec<Value>) -> Result<(), Memory> {
        for mention in &self.mentions()? {
            if defines(mention) && matches!(mention.name, Name::Symbol(_)) {
                let name = name_text(self.alloc, &mention.name)?;
                list.push(json!(in self.alloc; {"label": name, "kind": 21u64})?)?;
            }
        }
        Ok(())
    }
}

// The part of a line that ends where what is written of it ends.
fn part_written(front: &[u8]) -> Option<Part> {
    let ends = |part| part_span(front, part).to == front.len();
    if is_comment(front) || ends(Part::Label) {
        None
    } else if ends(Part::Operation) {
        Some(Part::Operation)
    } else if ends(Part::Address) && !is_alf(front) {
        Some(Part::Address)
    } else {
        None
    }
}

/// Whether OP is ALF, which has no names in its ADDRESS.
pub(crate) fn is_alf(front: &[u8]) -> bool {
    matches!(line_op(front), Ok(Mnemonic::Alf))
}

// The pseudo-operations, and the operations by C and by the F that each has where none is written.
fn add_operations(alloc: Global, list: &mut Vec<Value>) -> Result<(), Memory> {
    for mnemonic in [
        Mnemonic::Equ,
        Mnemonic::Orig,
        Mnemonic::Con,
        Mnemonic::Alf,
        Mnemonic::End,
    ] {
        list.push(item(alloc, mnemonic)?)?;
    }
    for code in 0..64 {
        for f in 0..10 {
            match decode(code, f) {
                Decoded::Named(operation) if operation.normal_f() == f => {
                    list.push(item(alloc, Mnemonic::Machine(operation))?)?;
                }
                _ => {}
            }
        }
    }
    Ok(())
}

fn item(alloc: Global, mnemonic: Mnemonic) -> Result<Value, Memory> {
    let does = does(alloc, mnemonic)?;
    let item = json!(in alloc; {"label": name_of(mnemonic), "kind": 14u64, "detail": does})?;
    Ok(item)
}
