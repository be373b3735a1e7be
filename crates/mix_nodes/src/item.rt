//! The lists of a shape, each with its items.
ghost use Rattle.std.specs.Prelude.{◌≡◌, Some, None, IfOk, if◌then◌else◌};
ghost use Rattle.mix_nodes.specs.Read.{part_named, read_word, with_item};

use crate::field::{field_named, link_named};
use crate::read::{Part, Reading};
use crate::shape::{Head, Shape};
use crate::words::{expression_in, is_keyword};
use mix_word::Word;
use mixal_text::Names;
use std::alloc::AllocError;

// The most items of a list.
const MAX_ITEMS: usize = 8;

/// The list that a keyword begins.
pub(crate) fn part_named(word: &[u8]) -> Option<Part>
    ensures { result ≡ part_named word.now }
{
    if is_keyword(b"base", word) {
        Some(Part::Base)
    } else if is_keyword(b"label", word) {
        Some(Part::Labels)
    } else if is_keyword(b"links", word) {
        Some(Part::Links)
    } else if is_keyword(b"heads", word) {
        Some(Part::Heads)
    } else {
        None
    }
}

impl<'a> Shape<'a> {
    // Adds an item to a list, of which each has at most eight; there is one base. False where it is none.
    fn add_item<N: Names>(
        &mut self,
        list: Part,
        word: &'a [u8],
        names: &N,
        here: Word,
    ) -> Result<bool, AllocError>
        ensures { IfOk result (λ done. with_item (N.names names.now) here self.old list word.now ≡ (if done then Some self.new else None)) }
    {
        match list {
            Part::Base => match expression_in(word, names, here) {
                Some(base) if self.base.is_none() => {
                    self.base = Some(base);
                    Ok(true)
                }
                _ => Ok(false),
            },
            Part::Labels => match field_named(word, names, here) {
                Some(field) if self.labels.len() < MAX_ITEMS => {
                    self.labels.push(field)?;
                    Ok(true)
                }
                _ => Ok(false),
            },
            Part::Links => match field_named(word, names, here) {
                Some(field) if self.links.len() < MAX_ITEMS => {
                    self.links.push(field)?;
                    Ok(true)
                }
                _ => Ok(false),
            },
            Part::Heads => match link_named(word, names, here) {
                Some(link) if self.heads.len() < MAX_ITEMS => {
                    self.heads.push(Head { text: word, link })?;
                    Ok(true)
                }
                _ => Ok(false),
            },
        }
    }
}

impl<'a> Reading<'a> {
    /// Reads one word more; false where it is a keyword though the list before it has no item, or
    /// neither a keyword nor an item of the list that was begun last.
    pub(crate) fn read<N: Names>(
        &mut self,
        word: &'a [u8],
        names: &N,
        here: Word,
    ) -> Result<bool, AllocError>
        ensures { IfOk result (λ done. read_word (N.names names.now) here self.old word.now (part_named word.now) ≡ (if done then Some self.new else None)) }
    {
        match part_named(word) {
            Some(list) => {
                if self.is_empty {
                    return Ok(false);
                }
                self.part = Some(list);
                self.is_empty = true;
                Ok(true)
            }
            None => match self.part {
                None => Ok(false),
                Some(list) => {
                    self.is_empty = false;
                    self.shape.add_item(list, word, names, here)
                }
            },
        }
    }
}
