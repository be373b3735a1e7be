//! Frames, heard one by one from what a client sends.

ghost use Rattle.std.specs.Prelude.{◌≡◌, ◌≢◌, ◌<◌, ◌-◌, ◌^◌, [], Some, Err};
ghost use Rattle.rpc_frame.specs.Frame.{first_frame, partial};
ghost use Rattle.rpc_stream.specs.Hearing.{FirstAs, HearsAs, kept, unheard};
ghost use Rattle.rpc_stream.specs.declared.broken.Broken.TheVariants as broken;
ghost use Rattle.mix_stream.specs.Stream.{CountsFailure};

use crate::broken::Broken;
use mix_stream::{CHUNK, In};
use rpc_frame::{MAX_BODY, MAX_HEADER, Next, next_frame};
use std::alloc::Global;

/// What was heard.
#[derive(Drop)]
pub enum Heard {
    /// The body of a frame, or none where its header gives no length.
    Frame(Option<Vec<u8>>),
    /// The end, where a frame ends.
    End,
}

/// The bytes that were read and not yet heard.
#[derive(Drop)]
pub struct Ear {
    alloc: Global,
    bytes: Vec<u8>,
}

impl Ear {
    /// Nothing is read yet.
    pub fn new(alloc: Global) -> Ear
        ensures { kept result ≡ [] }
    {
        Ear {
            alloc,
            bytes: Vec::new(alloc),
        }
    }

    /// The next frame, which is waited for, or the end where a frame ends. `Cut` is the end within a frame, `TooLong` a frame that is longer than it may
    /// be, `Read` a read that failed, and `Memory` no room for the frame; after these two no byte is lost. No read is tried where a whole frame is there.
    #[tactic(auto, using(crate::proofs::HearLemmas::hearing))]
    pub fn hear<R: In>(&mut self, input: &mut R) -> Result<Heard, Broken>
        requires { R.failed input.old < 2 ^ 64 - 1 }
        ensures heard { HearsAs result (unheard self.old (R.rest input.old)) (unheard self.new (R.rest input.new)) }
        ensures failed { CountsFailure (result ≡ Err broken.Read) (R.failed input.old) (R.failed input.new) }
        ensures partial { result ≡ Err broken.Read → first_frame (kept self.new) ≡ partial }
    {
        let mut buffer = [0; CHUNK];
        'reads: while self.bytes.len() < MAX_HEADER + MAX_BODY {
            if let Some(heard) = self.first()? {
                return Ok(heard);
            }
            self.bytes.reserve(CHUNK)?;
            let Ok(count) = input.read(&mut buffer) else {
                return Err(Broken::Read);
            };
            if count == 0 {
                return self.end();
            }
            self.bytes.extend_from_slice(&buffer[..count])?;
        }
        match self.first()? {
            Some(heard) => Ok(heard),
            None => unreachable!(),
        }
    }

    // What the end of the input is.
    fn end(&self) -> Result<Heard, Broken>
        requires { first_frame (kept self.now) ≡ partial }
        ensures end { HearsAs result (Some (kept self.now)) (Some (kept self.now)) }
        ensures read { result ≢ Err broken.Read }
    {
        if self.bytes.is_empty() {
            Ok(Heard::End)
        } else {
            Err(Broken::Cut)
        }
    }

    // The frame that the bytes begin with, if it is whole; it is taken off them.
    #[tactic(auto, using(crate::proofs::HearLemmas::frames))]
    fn first(&mut self) -> Result<Option<Heard>, Broken>
        ensures { FirstAs result (kept self.old) (kept self.new) }
    {
        match next_frame(self.bytes.as_slice()) {
            Next::Partial => Ok(None),
            Next::TooLong => Err(Broken::TooLong),
            Next::NoLength(rest) => {
                let rest = Vec::from_slice(self.alloc, rest)?;
                self.bytes = rest;
                Ok(Some(Heard::Frame(None)))
            }
            Next::Body(body, rest) => {
                let body = Vec::from_slice(self.alloc, body)?;
                let rest = Vec::from_slice(self.alloc, rest)?;
                self.bytes = rest;
                Ok(Some(Heard::Frame(Some(body))))
            }
        }
    }
}
