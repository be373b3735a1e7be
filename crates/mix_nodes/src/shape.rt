//! The shape of linked memory (2.2.3): where its nodes are, the fields of each, and the links into
//! them from outside.

use mix_word::{Field, Reg, Word};
use std::marker::Model;

/// A field of a word that is so far after the first one of a node.
#[derive(Clone, Copy)]
pub struct FieldAt {
    /// How far the word is after the first one, by its number.
    pub after: Word,
    /// The field.
    pub field: Field,
}

/// A link from outside the nodes.
#[derive(Clone, Copy)]
pub enum HeadLink {
    /// The link itself.
    Literal(Word),
    /// The one in a field of a cell.
    Cell(FieldAt),
    /// The one in an index register.
    Register(Reg),
}

/// A link from outside the nodes, as it was typed.
#[derive(Drop)]
pub struct Head<'a> {
    pub(crate) text: &'a [u8],
    pub(crate) link: HeadLink,
}

impl<'a> Model for Head<'a> {
    ghost use Rattle.mix_nodes.specs.Shape.{HeadValue};

    ghost Value = { HeadValue };

    ghost view = { λ h. record { text = h.text.now; link = h.link } };
}

/// Where nodes are, their fields, and the links into them: what `show nodes` is asked for.
#[derive(Drop)]
pub struct Shape<'a> {
    pub(crate) first: u16,
    pub(crate) last: u16,
    pub(crate) size: u16,
    pub(crate) base: Option<Word>,
    pub(crate) labels: Vec<FieldAt>,
    pub(crate) links: Vec<FieldAt>,
    pub(crate) heads: Vec<Head<'a>>,
}

impl<'a> Model for Shape<'a> {
    ghost use Rattle.mix_nodes.specs.Shape.{ShapeValue, IsShape};
    ghost use Rattle.mix_nodes.specs.View.{view_of};

    ghost Value = { ShapeValue };

    ghost view = { view_of };

    ghost invariant = { λ s. IsShape (view_of s) };
}

/// Where a link leads.
#[derive(Clone, Copy)]
pub enum Target {
    /// Nowhere, being 0.
    Nil,
    /// To a node: its number, from 0 on, and the cell of its first word.
    Node(u16, u16),
    /// To a word of a node that is not its first one: the cell.
    Inside(u16),
    /// To no node.
    Out(Word),
}
