//! For tests, of this crate and of those above it: a reader and a writer over memory that give and take a few bytes a call and fail
//! at one call. So a test can have each read and each write fail in turn, with no file and no allocation.

ghost use Rattle.std.specs.Prelude.{◌≡◌, ◌≤◌, [], Some, take};
ghost use Rattle.mix_stream.specs.Fake.{ChunksValue, SinkValue};

use crate::counted::Failed;
use crate::input::In;
use crate::output::Out;
use std::marker::Model;

/// A reader of some bytes.
#[derive(Drop)]
pub struct Chunks<'a> {
    rest: &'a [u8],
    size: usize,
    calls_to_failure: u64,
    failed: u64,
}

impl<'a> Model for Chunks<'a> {
    ghost Value = { ChunksValue };

    ghost view = { λ c. record { rest = c.rest.now; failed = c.failed } };
}

impl<'a> Chunks<'a> {
    /// Gives at most `size` bytes a call, and at least one; the call of number `failing` fails, where 0 is none.
    pub fn of(bytes: &'a [u8], size: usize, failing: u64) -> Chunks<'a>
        ensures rest { result.rest ≡ bytes.now }
        ensures failed { result.failed ≡ 0 }
    {
        Chunks {
            rest: bytes,
            size,
            calls_to_failure: failing,
            failed: 0,
        }
    }
}

impl In for Chunks<'_> {
    ghost rest = { λ c. Some c.rest };

    ghost failed = { λ c. c.failed };

    fn read(&mut self, buf: &mut [u8]) -> Result<usize, Failed> {
        if fails_now(&mut self.calls_to_failure) {
            self.failed += 1;
            return Err(Failed);
        }
        let count = self.size.max(1).min(buf.len()).min(self.rest.len());
        buf[..count].copy_from_slice(&self.rest[..count]);
        self.rest = &self.rest[count..];
        Ok(count)
    }

    fn failures(&self) -> u64 {
        self.failed
    }
}

const ROOM: usize = 4096;

/// A writer that keeps what it takes, up to 4,096 bytes; it takes no memory.
#[derive(Drop)]
pub struct Sink {
    room: [u8; ROOM],
    len: usize,
    size: usize,
    calls_to_failure: u64,
    failed: u64,
}

impl Model for Sink {
    ghost Value = { SinkValue };

    ghost view = { λ s. record { told = take s.len s.room; failed = s.failed } };

    ghost invariant = { λ s. s.len ≤ 4096 };
}

impl Sink {
    /// Takes at most `size` bytes a call, and at least one; the call of number `failing` fails, where 0 is none, and so does one for
    /// which no room is left.
    pub fn of(size: usize, failing: u64) -> Sink
        ensures empty { result.told ≡ [] }
        ensures failed { result.failed ≡ 0 }
    {
        Sink {
            room: [0; ROOM],
            len: 0,
            size,
            calls_to_failure: failing,
            failed: 0,
        }
    }

    /// What was written.
    pub fn bytes(&self) -> &[u8]
        ensures { result.now ≡ self.now.told }
    {
        &self.room[..self.len]
    }
}

impl Out for Sink {
    ghost told = { λ s. Some s.told };

    ghost failed = { λ s. s.failed };

    fn write(&mut self, buf: &[u8]) -> Result<usize, Failed> {
        let count = self.size.max(1).min(buf.len());
        if fails_now(&mut self.calls_to_failure) || count > ROOM - self.len {
            self.failed += 1;
            return Err(Failed);
        }
        self.room[self.len..self.len + count].copy_from_slice(&buf[..count]);
        self.len += count;
        Ok(count)
    }

    fn failures(&self) -> u64 {
        self.failed
    }
}

fn fails_now(calls_to_failure: &mut u64) -> bool {
    let now = *calls_to_failure == 1;
    *calls_to_failure = calls_to_failure.saturating_sub(1);
    now
}
