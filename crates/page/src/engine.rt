//! A dialogue that stays between two calls, with what the client has not been given yet.
ghost use Rattle.std.specs.Prelude.{◌≡◌, ◌<◌, [], true, false, length};
ghost use Rattle.mix_dap.specs.Dialogue.{at_first};
ghost use Rattle.page.specs.Engine.{Asks, IsGiven};

use crate::put_both;
use mix_dap::{Dialogue, NoLibrary};
use mix_stream::Counted;
use rpc_stream::Broken;
use std::alloc::Global;
use std::marker::Model;
use std::mem::replace;

/// A dialogue, and what was sent in it and not given yet.
#[derive(Drop)]
pub struct Engine {
    alloc: Global,
    dialogue: Dialogue,
    sent: Vec<u8>,
}

impl Model for Engine {
    ghost use Rattle.page.specs.Engine.{EngineValue};

    ghost Value = { EngineValue };

    ghost view = { λ e. record { reached = e.dialogue; unread = e.sent.items } };
}

impl Engine {
    /// Nothing was heard yet, and nothing sent. It takes no memory.
    pub fn new(alloc: Global) -> Engine
        ensures { result ≡ record { reached = at_first; unread = [] } }
    {
        Engine {
            alloc,
            dialogue: Dialogue::new(alloc),
            sent: Vec::new(alloc),
        }
    }

    /// The dialogue goes on over messages, and what it sends waits behind what waits already. Without messages it takes no memory.
    pub fn ask(&mut self, messages: &[u8]) -> Result<(), Broken>
        ensures { Asks self.old messages.now result self.new }
    {
        if messages.is_empty() {
            return Ok(());
        }
        let mut client = Counted::of(messages);
        let mut sent = Counted::of(replace(&mut self.sent, Vec::new(self.alloc)));
        let asked = self.dialogue.go_on(&NoLibrary, &mut client, &mut sent);
        self.sent = sent.inner;
        asked
    }

    // What was sent and is not given yet.
    fn unread(&self) -> &[u8]
        ensures { result.now ≡ self.now.unread }
    {
        self.sent.as_slice()
    }

    /// Puts what was sent and is not given yet at the beginning of a room, unless it is longer.
    pub fn give(&self, out: &mut [u8], count: &mut usize) -> bool
        ensures count { count.new ≡ length self.now.unread }
        ensures given { result ≡ true → IsGiven self.now.unread out.old out.new }
        ensures long { result ≡ false → (length out.old < length self.now.unread) × (out.new ≡ out.old) }
    {
        let unread = self.unread();
        *count = unread.len();
        put_both(out, unread, b"")
    }

    /// It is given.
    pub fn clear(&mut self)
        ensures { self.new ≡ record self.old { unread = [] } }
    {
        self.sent.clear();
    }
}
