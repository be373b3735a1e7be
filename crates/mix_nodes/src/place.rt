//! Where nodes are, and where links lead.
ghost use Rattle.std.specs.Prelude.{◌≡◌, ◌<◌, ◌≤◌, ◌*◌, ◌+◌, ◌&&◌, pos, ◌+ℤ◌, IfSome};
ghost use Rattle.mix_word.specs.Word.{number_of};
ghost use Rattle.mix_nodes.specs.Shape.{base_of};
ghost use Rattle.mix_nodes.specs.Nodes.{head_target, leads_to, link_target, location_of, node_count, target_of, value_of, word_at};

use crate::shape::{FieldAt, Head, HeadLink, Shape, Target};
use mix_machine::World;
use mix_word::{Place, Word};

// The word of a number; +0 where there is no cell of it.
fn word_at(world: &World, number: i32) -> Word
    ensures { result ≡ word_at world.now number }
{
    match u16::try_from(number) {
        Ok(number) => match Place::of(number) {
            Some(place) => world.cell(place),
            None => Word::ZERO,
        },
        Err(_) => Word::ZERO,
    }
}

/// The value of a field of what begins at a location.
pub(crate) fn value_of(world: &World, at: u16, field: FieldAt) -> Word
    ensures { result ≡ value_of world.now at field }
{
    word_at(world, i32::from(at) + field.after.number()).field_value(field.field)
}

impl Shape<'_> {
    /// How many nodes there are.
    pub(crate) fn node_count(&self) -> u16
        ensures is { result ≡ node_count self.now }
        ensures within { result * self.now.size ≤ 4000 }
    {
        (self.last + 1 - self.first) / self.size
    }

    /// The cell of the first word of a node.
    pub(crate) fn location_of(&self, node: u16) -> u16
        requires { node < node_count self.now }
        ensures is { result ≡ location_of self.now node }
    {
        self.first + node * self.size
    }

    /// Where a link leads.
    #[tactic(auto, unfolding(crate::specs::Nodes::target_of))]
    pub(crate) fn target_of(&self, link: Word) -> Target
        ensures { result ≡ target_of self.now link }
    {
        if link.magnitude() == 0 {
            return Target::Nil;
        }
        let base = self.base.unwrap_or(Word::ZERO);
        match u16::try_from(base.number() + link.number()) {
            Ok(number) if self.first <= number => {
                let far = number - self.first;
                if far >= self.node_count() * self.size {
                    Target::Out(link)
                } else if far % self.size == 0 {
                    Target::Node(far / self.size, self.first + far)
                } else {
                    Target::Inside(self.first + far)
                }
            }
            _ => Target::Out(link),
        }
    }

    /// Where a link of a node leads.
    pub(crate) fn link_target(&self, world: &World, node: u16, field: FieldAt) -> Target
        requires { node < node_count self.now }
        ensures { result ≡ link_target world.now self.now node field }
    {
        self.target_of(value_of(world, self.location_of(node), field))
    }

    /// Where the link of a head leads.
    pub(crate) fn head_target(&self, world: &World, head: &Head) -> Target
        ensures { result ≡ head_target world.now self.now head.now }
    {
        match head.link {
            HeadLink::Literal(link) => self.target_of(link),
            HeadLink::Cell(field) => self.target_of(value_of(world, 0, field)),
            HeadLink::Register(register) => self.target_of(world.register(register)),
        }
    }
}

/// Whether a link leads to a node.
pub(crate) fn leads_to(node: u16, target: Target) -> bool
    ensures { result ≡ leads_to node target }
{
    match target {
        Target::Node(other, _) => other == node,
        Target::Nil | Target::Inside(_) | Target::Out(_) => false,
    }
}
