//! The line that says what ended a talk before the client was done.

ghost use Rattle.std.specs.Prelude.{◌≡◌, ◌<◌, ◌-◌, ◌^◌};
ghost use Rattle.mix_dap.specs.Dialogue.{TellsBroken};

use mix_stream::{Out, write_all};
use rpc_stream::Broken;
use std::alloc::{AllocError, Global};

/// Writes the line; where memory is refused for it, the one that says so.
pub(crate) fn tell<E: Out>(alloc: Global, broken: Broken, errors: &mut E)
    requires { E.failed errors.old < 2 ^ 64 - 1 }
    ensures { E.failed errors.new ≡ E.failed errors.old → TellsBroken broken (E.told errors.old) (E.told errors.new) }
{
    let line: Result<String, AllocError> = format!(in alloc; "mixrev: {broken}\n");
    let told = match line {
        Ok(line) => write_all(errors, line.as_bytes()),
        Err(_) => write_all(errors, b"mixrev: T1 out of memory\n"),
    };
    match told {
        Ok(()) | Err(_) => {}
    }
}
