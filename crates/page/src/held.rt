//! An engine behind a pointer.
ghost use Rattle.std.specs.Prelude.{◌≡◌, Option, Some, None, IsSome};
ghost use Rattle.page.specs.declared.engine.Engine.{Engine};

use crate::engine::Engine;
use box_parts::Parts;
use std::alloc::Global;
use std::marker::Model;
use std::ptr::null_mut;

/// An engine in a block of the heap, or none: a pointer.
#[repr(C)]
pub struct Held {
    at: *mut u8,
    alloc: Global,
    pub ghost value: { Option Engine },
}

impl Model for Held {
    ghost use Rattle.page.specs.Owned.{owned};

    ghost also_owns = { λ h. owned h.alloc h.at h.value };
}

impl Held {
    /// Without an engine.
    pub fn none(alloc: Global) -> Held
        ensures { result.value ≡ None }
    {
        Held {
            at: null_mut(),
            alloc,
        }
    }

    /// With this engine.
    pub fn of(engine: Box<Engine>) -> Held
        ensures { result.value ≡ Some engine.value }
    {
        Held::of_parts(Parts::of(engine))
    }

    fn of_parts(parts: Parts<Engine, Global>) -> Held
        ensures { result.value ≡ Some parts.value }
    {
        let Parts { at, alloc } = parts;
        Held {
            at: at as *mut u8,
            alloc,
        }
    }

    /// The engine.
    pub fn into_box(self) -> Box<Engine>
        requires { IsSome self.value }
        ensures { Some result.value ≡ self.value }
    {
        self.into_parts().into_box()
    }

    fn into_parts(self) -> Parts<Engine, Global>
        requires { IsSome self.value }
        ensures { Some result.value ≡ self.value }
    {
        let Held { at, alloc } = self;
        Parts {
            at: at as *mut Engine,
            alloc,
        }
    }

    /// Lets go of none.
    pub fn end(self)
        requires { self.value ≡ None }
    {
        let Held { at: _, alloc: _ } = self;
    }
}
