//! A talk at one moment.

ghost use Rattle.std.specs.Prelude.{◌≡◌, IfOk};
ghost use Rattle.mix_run.specs.Prelude.{origin_of, begun};

use crate::bundle::{Origin, copy_of};
use crate::talk::recall::Recall;
use crate::units::Deck;
use mix_refused::Memory;
use mix_session::Session;
use mixal_asm::Program;
use std::alloc::Global;

/// A talk at one moment: its session, what is recalled, and what it is about.
#[derive(Drop)]
pub(crate) struct Moment<'n> {
    pub(crate) session: Session,
    pub(crate) recall: Recall,
    pub(crate) origin: Origin<'n>,
}

impl<'n> Moment<'n> {
    /// A talk begins with the machine that its program loads, and nothing is recalled.
    pub(crate) fn begin(
        alloc: Global,
        name: &'n str,
        source: &[u8],
        program: Program,
        deck: Deck,
    ) -> Result<Moment<'n>, Memory>
        ensures { IfOk result (λ moment. moment ≡ begun (origin_of name.now source.now deck.text.items) program deck.units) }
    {
        let Deck { text, units } = deck;
        let copy = copy_of(alloc, source)?;
        let session = Session::open(alloc, program, units)?;
        Ok(Moment {
            session,
            recall: Recall::new(alloc),
            origin: Origin::of(name, copy, text),
        })
    }
}
