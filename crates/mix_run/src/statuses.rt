//! How a run ends: its status, and what is written of a source that is refused. The status 2 is for the faults of the tool.

ghost use Rattle.std.specs.Prelude.{◌≡◌, ◌<◌, ◌-◌, ◌^◌, ◌++◌, [], ◌∷◌, Err, IfErr, IfOk, OnOk, string_bytes};
ghost use Rattle.mixal_asm.specs.Fault.{asm_fault_line};
ghost use Rattle.mix_run.specs.Prelude.{IsMemoryOrWrite, IsStatus, Meets, refusal_of, status_of};
ghost use Rattle.mix_stream.specs.Stream.{CountsFailure};

use crate::fault::ToolFault;
use mix_refused::Memory;
use mix_session::Told;
use mix_stream::{Out, write_all};
use mixal_asm::AsmFault;
use std::alloc::Global;

/// Each command was accepted, or the machine came to a halt.
pub const DONE: u8 = 0;

/// The source is refused.
pub const SOURCE_REFUSED: u8 = 1;

/// Some command was refused, or a step met a fault, or the steps were used up.
pub const NOT_DONE: u8 = 3;

/// The status of a script: whether each of its commands was accepted.
pub(crate) fn status(told: Told) -> u8
    ensures { result ≡ status_of told }
{
    match told {
        Told::Accepted => DONE,
        Told::Refused => NOT_DONE,
    }
}

/// The first fault of a source is all that is written.
pub(crate) fn refuse_source<W: Out>(
    alloc: Global,
    fault: AsmFault,
    out: &mut W,
) -> Result<u8, ToolFault>
    requires { W.failed out.old < 2 ^ 64 - 1 }
    ensures output { Meets (refusal_of fault) result (W.told out.old) (W.told out.new) }
    ensures write { CountsFailure (result ≡ Err ToolFault.Write) (W.failed out.old) (W.failed out.new) }
    ensures only { IfErr result IsMemoryOrWrite }
    ensures ends { IfOk result IsStatus }
{
    let line = fault_line(alloc, fault)?;
    write_all(out, line.as_bytes())?;
    Ok(SOURCE_REFUSED)
}

fn fault_line(alloc: Global, fault: AsmFault) -> Result<String, Memory>
    ensures { IfOk result (λ s. string_bytes s ≡ asm_fault_line fault ++ 10 ∷ []) }
{
    let text = format!(in alloc; "{fault}\n")?;
    Ok(text)
}
