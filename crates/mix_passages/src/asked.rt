//! What is asked of the passages of a line.
ghost use Rattle.std.specs.Prelude.{◌≡◌};
ghost use Rattle.mix_passages.specs.Assertion.{all_relations, relation_name};

use mix_machine::{Place, Reg};
use std::marker::Model;

/// What a column may hold: a register, or a cell.
#[derive(Clone, Copy)]
pub enum Item {
    Register(Reg),
    Cell(Place),
}

/// A column, with the name at its head.
#[derive(Drop)]
pub struct Column {
    pub name: Vec<u8>,
    pub item: Item,
}

impl Model for Column {
    ghost use Rattle.mix_passages.specs.Passages.{ColumnValue};

    ghost Value = { ColumnValue };

    ghost view = { λ c. record { name = c.name.items; item = c.item } };
}

/// A side of an assertion: a number, or the number that a register or a cell holds.
#[derive(Clone, Copy)]
pub enum Side {
    Number(i64),
    Of(Item),
}

/// A relation of two numbers.
#[derive(Clone, Copy)]
pub enum Relation {
    Less,
    LessOrEqual,
    Equal,
    NotEqual,
    GreaterOrEqual,
    Greater,
}

impl Relation {
    #[rattlefmt::skip]
    pub(crate) const ALL: [Relation; 6] = [
        Relation::Less, Relation::LessOrEqual, Relation::Equal, Relation::NotEqual,
        Relation::GreaterOrEqual, Relation::Greater,
    ];

    // How it is written.
    pub(crate) fn name(self) -> &'static str
        ensures { result.now ≡ relation_name self }
    {
        match self {
            Relation::Less => "<",
            Relation::LessOrEqual => "<=",
            Relation::Equal => "=",
            Relation::NotEqual => "<>",
            Relation::GreaterOrEqual => ">=",
            Relation::Greater => ">",
        }
    }
}

/// An assertion (1.2.1): that two numbers are in a relation, with the words that say so.
#[derive(Drop)]
pub struct Assertion {
    pub(crate) left: Side,
    pub(crate) relation: Relation,
    pub(crate) right: Side,
    pub words: Vec<u8>,
}

impl Model for Assertion {
    ghost use Rattle.mix_passages.specs.Passages.{AssertionValue};

    ghost Value = { AssertionValue };

    ghost view = { λ a. record { left = a.left; relation = a.relation; right = a.right; words = a.words.items } };
}

/// What is asked: the location of the line, the columns, and the assertion, if there is one.
#[derive(Drop)]
pub struct Passages {
    pub place: Place,
    pub columns: Vec<Column>,
    pub assertion: Option<Assertion>,
}

impl Model for Passages {
    ghost use Rattle.mix_passages.specs.Passages.{PassagesValue};

    ghost Value = { PassagesValue };

    ghost view = { λ p. record { place = p.place; columns = p.columns.items; assertion = p.assertion } };
}
