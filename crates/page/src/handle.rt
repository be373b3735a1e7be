//! What a caller in C keeps between two calls.
ghost use Rattle.std.specs.Prelude.{◌≡◌, Option, Some, None, is_some, option_map};

use crate::engine::Engine;
use crate::held::Held;
use std::alloc::Global;

/// An engine, or none: a pointer and a flag. Where all bytes are zero, there is none.
#[repr(C)]
pub struct Handle {
    held: Held,
    full: bool,
    pub ghost tied: { full ≡ is_some held.value },
}

impl Handle {
    /// Without an engine.
    pub fn none(alloc: Global) -> Handle
        ensures { result.held.value ≡ None }
    {
        Handle {
            held: Held::none(alloc),
            full: false,
        }
    }

    /// With this engine.
    pub fn of(engine: Box<Engine>) -> Handle
        ensures { result.held.value ≡ Some engine.value }
    {
        Handle {
            held: Held::of(engine),
            full: true,
        }
    }

    /// The engine, if there is one.
    pub fn into_box(self) -> Option<Box<Engine>>
        ensures { option_map (λ b. b.value) result ≡ self.held.value }
    {
        let Handle { held, full } = self;
        if full {
            Some(held.into_box())
        } else {
            held.end();
            None
        }
    }
}

impl Drop for Handle {
    fn drop(self) {
        let Handle { held, full } = self;
        if full {
            drop(held.into_box());
        } else {
            held.end();
        }
    }
}
