//! What stands in the place of LOC (1.3.2).
ghost use Rattle.std.specs.Prelude.{◌≡◌};
ghost use Rattle.mixal_text.specs.Label.{label_of};

use crate::local::{Direction, Local};
use crate::symbol::Symbol;

/// What a line defines (1.3.2): an ordinary symbol, or the local symbol dH by its digit d, 0 to 9.
#[derive(Drop)]
pub enum Label {
    Name(Symbol),
    Local(u8),
}

impl Label {
    /// The label that a text is, in either case of letters, or none where it is none.
    #[tactic(auto, unfolding(crate::specs::Label::label_of))]
    pub(crate) fn of(text: &[u8]) -> Option<Label>
        ensures { result ≡ label_of text.now }
    {
        match Local::of(text) {
            Some(local) => match local.direction {
                Direction::Here => Some(Label::Local(local.digit)),
                Direction::Backward | Direction::Forward => None,
            },
            None => Symbol::of(text).map(Label::Name),
        }
    }
}
