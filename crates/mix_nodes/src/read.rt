//! A shape as it is typed: from E to E, N words each, base E, label F, .. links F, .. heads H, ..
ghost use Rattle.std.specs.Prelude.{◌≡◌, ◌≤◌, ◌<◌, Some, None, false, IfOk, IfSome, MatchOption, codes};
ghost use Rattle.mixal_text.specs.Names.{NamesValue};
ghost use Rattle.mix_nodes.specs.Read.{first_region, reading, read_shape, read_words, shape_in, shape_of, without_commas};

use crate::shape::Shape;
use crate::words::{first_cell, first_size, keyword, next_word};
use mix_lines::Words;
use mix_refused::Memory;
use mix_word::Word;
use mixal_text::Names;
use std::alloc::{AllocError, Global};

/// Where nodes are, and how many words each has.
#[derive(Clone, Copy)]
pub(crate) struct Region {
    pub first: u16,
    pub last: u16,
    pub size: u16,
}

/// The lists of a shape.
#[derive(Clone, Copy)]
pub(crate) enum Part {
    Base,
    Labels,
    Links,
    Heads,
}

/// What was read of a shape: the list that was begun last, and whether it has no item yet.
#[derive(Drop)]
pub(crate) struct Reading<'a> {
    pub shape: Shape<'a>,
    pub part: Option<Part>,
    pub is_empty: bool,
}

// Reads the fixed beginning: from E to E, N words each.
#[tactic(auto, unfolding(crate::specs::Read::first_region))]
fn first_region<N: Names>(words: &mut Words, names: &N, here: Word) -> Option<Region>
    ensures is { MatchOption result (first_region (N.names names.now) here (without_commas words.old) ≡ None) (λ r. first_region (N.names names.now) here (without_commas words.old) ≡ Some (r, without_commas words.new)) }
    ensures cells { IfSome result (λ r. (r.first ≤ r.last) × (r.last < 4000)) }
    ensures size { IfSome result (λ r. (0 < r.size) × (r.size ≤ 4000)) }
{
    keyword(b"from", words)?;
    let first = first_cell(words, names, here)?;
    keyword(b"to", words)?;
    let last = first_cell(words, names, here)?;
    let size = first_size(words)?;
    keyword(b"words", words)?;
    keyword(b"each", words)?;
    if first <= last {
        Some(Region { first, last, size })
    } else {
        None
    }
}

// A shape of which no list was read.
fn shape_in<'a>(alloc: Global, region: Region) -> Shape<'a>
    requires first { region.first ≤ region.last }
    requires last { region.last < 4000 }
    requires some { 0 < region.size }
    requires size { region.size ≤ 4000 }
    ensures { result ≡ shape_in region }
{
    Shape {
        first: region.first,
        last: region.last,
        size: region.size,
        base: None,
        labels: Vec::new(alloc),
        links: Vec::new(alloc),
        heads: Vec::new(alloc),
    }
}

impl<'a> Reading<'a> {
    // The shape, if the last list has an item, and there is a link.
    fn shape(self) -> Option<Shape<'a>>
        ensures { result ≡ read_shape self.entry }
    {
        if self.is_empty || self.shape.links.is_empty() {
            None
        } else {
            Some(self.shape)
        }
    }
}

// Reads the words that are left.
fn read_words<'a, N: Names>(
    shape: Shape<'a>,
    words: &mut Words<'a>,
    names: &N,
    here: Word,
) -> Result<Option<Shape<'a>>, AllocError>
    ensures { IfOk result (λ s. s ≡ read_words (N.names names.now) here (reading None false shape.entry) (without_commas words.old)) }
{
    let mut reading = Reading {
        shape,
        part: None,
        is_empty: false,
    };
    while let Some(word) = next_word(words) {
        if !reading.read(word, names, here)? {
            return Ok(None);
        }
    }
    Ok(reading.shape())
}

/// The shape that the words left stand for, or none. In expressions the asterisk stands for `here`.
#[tactic(auto, unfolding(crate::specs::Read::shape_of))]
pub fn read_shape<'a, N: Names>(
    alloc: Global,
    words: &mut Words<'a>,
    names: &N,
    here: Word,
) -> Result<Option<Shape<'a>>, Memory>
    ensures { IfOk result (λ s. s ≡ shape_of (N.names names.now) here words.old) }
{
    match first_region(words, names, here) {
        None => Ok(None),
        Some(region) => {
            let shape = read_words(shape_in(alloc, region), words, names, here)?;
            Ok(shape)
        }
    }
}
