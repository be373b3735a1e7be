//! Writers, and writing all of some bytes.

ghost use Rattle.std.specs.Prelude.{◌≡◌, ◌<◌, ◌≤◌, ◌+◌, ◌-◌, ◌^◌, ℕ, List, Option, IfOk, IsErr, OnOk, OnErr, length};
ghost use Rattle.std.specs.Io.KnownBytes.{Appends, WriteAppends};
ghost use Rattle.mix_stream.specs.Stream.{AppendsFront, CountsFailure};

use crate::counted::{Counted, Failed};
use std::io::Write;

/// A writer that counts its failed writes.
pub trait Out {
    // The bytes that were written so far, where they are known.
    ghost told: { Self → Option (List ℕ) };

    // How many writes have failed.
    ghost failed: { Self → ℕ };

    /// Writes one byte or more of the beginning of some bytes; a failed write writes none.
    fn write(&mut self, buf: &[u8]) -> Result<usize, Failed>
        requires some { 0 < length buf.now }
        requires count { failed self.old < 2 ^ 64 - 1 }
        ensures bound { IfOk result (λ n. (0 < n) × (n ≤ length buf.now)) }
        ensures bytes { WriteAppends (told self.old) (told self.new) result buf.now }
        ensures ok { OnOk result (failed self.new ≡ failed self.old) }
        ensures err { OnErr result (failed self.new ≡ failed self.old + 1) };

    /// How many writes have failed.
    fn failures(&self) -> u64
        ensures { result ≡ failed self.now };
}

impl<T: Write> Out for Counted<T> {
    ghost told = { λ c. T.contents c.inner };

    ghost failed = { λ c. c.count };

    fn write(&mut self, buf: &[u8]) -> Result<usize, Failed> {
        match self.inner.write(buf) {
            Ok(count) if count > 0 => Ok(count),
            _ => Err(self.failed_once()),
        }
    }

    fn failures(&self) -> u64 {
        self.count
    }
}

/// Writes all of some bytes; where a write fails, a beginning of them is written.
#[tactic(auto, using(crate::proofs::StreamLemmas::appends_next))]
pub fn write_all<W: Out>(out: &mut W, bytes: &[u8]) -> Result<(), Failed>
    requires { W.failed out.old < 2 ^ 64 - 1 }
    ensures written { OnOk result (Appends (W.told out.old) (W.told out.new) bytes.now) }
    ensures begun { OnErr result (AppendsFront (W.told out.old) (W.told out.new) bytes.now) }
    ensures failed { CountsFailure (IsErr result) (W.failed out.old) (W.failed out.new) }
{
    let mut at = 0;
    while at < bytes.len() {
        at += out.write(&bytes[at..])?;
    }
    Ok(())
}
