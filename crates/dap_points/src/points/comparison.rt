//! A condition of a breakpoint: a value, and how it is to compare with another one.

ghost use Rattle.std.specs.Prelude.{◌≡◌};
ghost use Rattle.mix_word.specs.Comparison.{order_of};
ghost use Rattle.dap_points.specs.Comparison.{compares, relates};

use crate::points::amount::worth_number;
use dap_asked::{Worth, worth_of};
use mix_machine::{Cmp, World};
use mix_session::Session;

/// In which orders of two numbers the first one compares with the second as it is to.
#[derive(Clone, Copy)]
pub(crate) struct Relation {
    less: bool,
    equal: bool,
    greater: bool,
}

/// A condition.
#[derive(Clone, Copy)]
pub(crate) struct Comparison {
    left: Worth,
    relation: Relation,
    right: Worth,
}

impl Comparison {
    /// Whether it holds of a machine.
    pub(crate) fn holds(&self, world: &World) -> bool
        ensures { result ≡ compares world.now self.now }
    {
        let left = worth_number(world, self.left);
        let right = worth_number(world, self.right);
        self.relation.relates(order(left, right))
    }
}

fn order(left: i64, right: i64) -> Cmp
    ensures { result ≡ order_of left right }
{
    if left < right {
        Cmp::Less
    } else if right < left {
        Cmp::Greater
    } else {
        Cmp::Equal
    }
}

impl Relation {
    fn relates(&self, order: Cmp) -> bool
        ensures { result ≡ relates self.now order }
    {
        match order {
            Cmp::Less => self.less,
            Cmp::Equal => self.equal,
            Cmp::Greater => self.greater,
        }
    }
}

/// What a text says, if it says a condition: two values with `=`, `==`, `!=`, `<>`, `<`, `<=`, `>`
/// or `>=` between them, or one that is not to be 0.
pub(crate) fn comparison_in(session: &Session, text: &str) -> Option<Comparison> {
    let (left, relation, right) = sides_of(text);
    Some(Comparison {
        left: worth_of(session, left)?,
        relation,
        right: worth_of(session, right)?,
    })
}

fn sides_of(text: &str) -> (&str, Relation, &str) {
    if let Some((left, right)) = text.split_once('<') {
        return match (right.strip_prefix("="), right.strip_prefix(">")) {
            (Some(right), _) => (left, holding(true, true, false), right),
            (None, Some(right)) => (left, holding(true, false, true), right),
            (None, None) => (left, holding(true, false, false), right),
        };
    }
    if let Some((left, right)) = text.split_once('>') {
        return match right.strip_prefix("=") {
            Some(right) => (left, holding(false, true, true), right),
            None => (left, holding(false, false, true), right),
        };
    }
    match text.split_once('=') {
        Some((left, right)) => match (left.strip_suffix("!"), right.strip_prefix("=")) {
            (Some(left), _) => (left, holding(true, false, true), right),
            (None, Some(right)) => (left, holding(false, true, false), right),
            (None, None) => (left, holding(false, true, false), right),
        },
        None => (text, holding(true, false, true), "0"),
    }
}

fn holding(less: bool, equal: bool, greater: bool) -> Relation {
    Relation {
        less,
        equal,
        greater,
    }
}
