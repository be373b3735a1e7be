//! Readers, and reading up to a limit.

ghost use Rattle.std.specs.Prelude.{◌≡◌, ◌<◌, ◌≤◌, ◌+◌, ◌-◌, ◌^◌, ℕ, List, Option, Some, Ok, Err, IfOk, OnOk, OnErr, length, take, drop, vec_len};
ghost use Rattle.std.specs.Io.KnownBytes.{ReadConsumes};
ghost use Rattle.mix_refused.specs.Refused.{IsFault};
ghost use Rattle.mix_stream.specs.Stream.{ConsumesAtMost, CountsFailure};

use crate::counted::{Counted, Failed};
use mix_refused::Refused;
use std::alloc::Global;
use std::io::Read;

/// A reader that counts its failed reads.
pub trait In {
    // The bytes that reads will give from here on, where they are known.
    ghost rest: { Self → Option (List ℕ) };

    // How many reads have failed.
    ghost failed: { Self → ℕ };

    /// Reads some bytes into a buffer with room, at least one unless the end is reached; a failed read gives none.
    fn read(&mut self, buf: &mut [u8]) -> Result<usize, Failed>
        requires room { 0 < length buf.old }
        requires count { failed self.old < 2 ^ 64 - 1 }
        ensures bound { IfOk result (λ n. n ≤ length buf.new) }
        ensures bytes { ReadConsumes (rest self.old) (rest self.new) result buf.new }
        ensures ok { OnOk result (failed self.new ≡ failed self.old) }
        ensures err { OnErr result (failed self.new ≡ failed self.old + 1) };

    /// How many reads have failed.
    fn failures(&self) -> u64
        ensures { result ≡ failed self.now };
}

impl<T: Read> In for Counted<T> {
    ghost rest = { λ c. T.remaining c.inner };

    ghost failed = { λ c. c.count };

    fn read(&mut self, buf: &mut [u8]) -> Result<usize, Failed> {
        match self.inner.read(buf) {
            Ok(count) => Ok(count),
            Err(_) => Err(self.failed_once()),
        }
    }

    fn failures(&self) -> u64 {
        self.count
    }
}

impl From<Failed> for Refused<Failed> {
    ghost use Rattle.mix_refused.specs.declared.refused.Refused.{Refused};

    ghost from_gives = { λ failed fault. fault ≡ Refused.Fault failed };

    fn from(failed: Failed) -> Refused<Failed> {
        Refused::Fault(failed)
    }
}

/// How many bytes are asked of a reader at once.
pub const CHUNK: usize = 4096;

/// The bytes of a reader up to its end or up to a limit; it never takes more than that from the reader. It fails where memory is
/// refused, and at the first failed read.
#[tactic(auto, using(crate::proofs::StreamLemmas::reads))]
pub fn read_up_to<R: In>(
    alloc: Global,
    source: &mut R,
    most: usize,
) -> Result<Vec<u8>, Refused<Failed>>
    requires { R.failed source.old < 2 ^ 64 - 1 }
    ensures whole { (s : List ℕ) → R.rest source.old ≡ Some s
        → IfOk result (λ v. (v.items ≡ take most s) × (R.rest source.new ≡ Some (drop most s))) }
    ensures within { ConsumesAtMost (R.rest source.old) (R.rest source.new) most }
    ensures length { IfOk result (λ v. vec_len v ≤ most) }
    ensures failed { CountsFailure (IsFault result) (R.failed source.old) (R.failed source.new) }
{
    let mut bytes = Vec::new(alloc);
    let mut buffer = [0; CHUNK];
    while bytes.len() < most {
        let room = CHUNK.min(most - bytes.len());
        let part = &mut buffer[..room];
        let count = source.read(part)?;
        if count == 0 {
            return Ok(bytes);
        }
        bytes.extend_from_slice(&part[..count])?;
    }
    Ok(bytes)
}
