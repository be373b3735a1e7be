//! Standard output into a pipe that nobody reads any longer: then the error output is silent, as that of other programs is.

use std::cell::Cell;
use std::io::{ErrorKind, Result, Write};

/// A writer that notes where its pipe is closed.
#[derive(Drop)]
pub struct Piped<'c, W> {
    pub inner: W,
    pub is_closed: &'c Cell<bool>,
}

impl<W: Write> Write for Piped<'_, W> {
    ghost contents = { λ p. W.contents p.inner };

    fn write(&mut self, buf: &[u8]) -> Result<usize> {
        match self.inner.write(buf) {
            Ok(count) => Ok(count),
            Err(error) => {
                if error.kind() == ErrorKind::BrokenPipe {
                    self.is_closed.set(true);
                }
                Err(error)
            }
        }
    }

    fn flush(&mut self) -> Result<()> {
        self.inner.flush()
    }
}

/// A writer that takes all, and hands it on until a pipe is closed.
#[derive(Drop)]
pub struct UntilClosed<'c, W> {
    pub inner: W,
    pub is_closed: &'c Cell<bool>,
}

impl<W: Write> Write for UntilClosed<'_, W> {
    // What it hands on depends on a pipe.
    ghost contents = { λ _. None };

    ghost use Rattle.std.specs.Prelude.{None};

    fn write(&mut self, buf: &[u8]) -> Result<usize> {
        if self.is_closed.get() {
            Ok(buf.len())
        } else {
            self.inner.write(buf)
        }
    }

    fn flush(&mut self) -> Result<()> {
        self.inner.flush()
    }
}
