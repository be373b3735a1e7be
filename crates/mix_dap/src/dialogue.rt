//! A dialogue with a client, which may be had part by part.

ghost use Rattle.std.specs.Prelude.{◌≡◌, ◌<◌, ◌-◌, ◌^◌, Err};
ghost use Rattle.mix_stream.specs.Stream.{CountsFailure};
ghost use Rattle.rpc_stream.specs.declared.broken.Broken.TheVariants as broken;
ghost use Rattle.mix_dap.specs.Dialogue.{GoesOnAs, at_first, is_over};

use crate::launch::Library;
use crate::served::{Holds, Served};
use crate::waiting::Waiting;
use mix_stream::{In, Out};
use rpc_stream::{Broken, Ear, Talk};
use std::alloc::Global;
use std::marker::Model;
use std::mem::replace;

/// A dialogue with a client, which goes on where it was, and so do the numbers of its messages.
#[derive(Drop)]
pub struct Dialogue {
    alloc: Global,
    holds: Holds,
    talk: Talk,
}

impl Model for Dialogue {
    ghost use Rattle.mix_dap.specs.Dialogue.{Reached};

    ghost Value = { Reached };

    ghost use Rattle.mix_dap.specs.Stage.{stage_of};

    ghost view = { λ d. (stage_of d.holds, d.talk.outbox.seq) };
}

impl Dialogue {
    /// No request was heard yet. It takes no memory.
    pub fn new(alloc: Global) -> Dialogue
        ensures { result ≡ at_first }
    {
        Dialogue {
            alloc,
            holds: Holds::Waiting(Waiting::new(alloc)),
            talk: Talk::new(alloc),
        }
    }

    // Whether the client is done, or the dialogue was broken off.
    fn is_over(&self) -> bool
        ensures { result ≡ is_over self.now.0 }
    {
        match self.holds {
            Holds::Waiting(_) | Holds::Program(_) => false,
            Holds::Nothing => true,
        }
    }

    /// The client is heard and answered until it is done or the input is at its end, where a frame ends. What breaks it off ends the dialogue. After its
    /// end nothing is heard.
    pub fn go_on<L: Library, R: In, W: Out>(
        &mut self,
        library: &L,
        input: &mut R,
        out: &mut W,
    ) -> Result<(), Broken>
        requires read { R.failed input.old < 2 ^ 64 - 1 }
        requires written { W.failed out.old < 2 ^ 64 - 1 }
        ensures dialogue { GoesOnAs self.old result self.new (R.rest input.old) (R.rest input.new) (W.told out.old) (W.told out.new) }
        ensures read { CountsFailure (result ≡ Err broken.Read) (R.failed input.old) (R.failed input.new) }
        ensures written { CountsFailure (result ≡ Err broken.Write) (W.failed out.old) (W.failed out.new) }
    {
        if self.is_over() {
            return Ok(());
        }
        // what was read and not heard is of the part before
        self.talk.ear = Ear::new(self.alloc);
        self.talk.outbox.clear();
        let holds = replace(&mut self.holds, Holds::Nothing);
        let mut served = Served::of(self.alloc, library, holds);
        self.talk.with(&mut served, input, out)?;
        self.holds = served.into_holds();
        Ok(())
    }
}
