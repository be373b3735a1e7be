//! The listing of a source.

ghost use Rattle.std.specs.Prelude.{◌≡◌, ◌<◌, ◌+◌, ◌-◌, ◌^◌, ℕ, List, Some, Ok, Err, IfErr, IfOk};
ghost use Rattle.std.specs.Io.KnownBytes.{Keeps};
ghost use Rattle.mix_stream.specs.Stream.{ConsumesAtMost, CountsFailure};
ghost use Rattle.mixal_asm.specs.Assembly.{max_source_bytes};
ghost use Rattle.mixal_asm.specs.Listing.{listing};
ghost use Rattle.mix_run.specs.Prelude.{IsMemoryOrWrite, Meets, Ended, IsStatus, list_output};

use crate::fault::ToolFault;
use crate::statuses::{DONE, refuse_source};
use crate::typeset::typeset;
use mix_refused::Refused;
use mix_stream::{In, Out, read_up_to, write_all};
use mixal_asm::{MAX_SOURCE_BYTES, Program, assemble};
use std::alloc::Global;

// The listing of an assembled source.
fn list<W: Out>(alloc: Global, program: &Program, out: &mut W) -> Result<u8, ToolFault>
    requires { W.failed out.old < 2 ^ 64 - 1 }
    ensures output { Meets (Ended (listing program.now) 0) result (W.told out.old) (W.told out.new) }
    ensures write { CountsFailure (result ≡ Err ToolFault.Write) (W.failed out.old) (W.failed out.new) }
    ensures only { IfErr result IsMemoryOrWrite }
    ensures ends { IfOk result IsStatus }
{
    match program.write_listing(alloc, out) {
        Ok(()) => Ok(DONE),
        Err(Refused::Memory) => Err(ToolFault::Memory),
        Err(Refused::Fault(_)) => Err(ToolFault::Write),
    }
}

/// Assembles a source and writes its listing (1.3.2). The status is 0, or 1 where the source is refused: then its first fault is
/// written. At most 1,048,577 bytes are read, all of them before the first byte is written.
///
/// It fails with T1 where memory is refused, and with T2 or T3 where a read or the write fails. After T1 and T3 a beginning of the
/// output has been written, after T2 nothing.
pub fn run_list<R: In, W: Out>(alloc: Global, source: &mut R, out: &mut W) -> Result<u8, ToolFault>
    requires source_count { R.failed source.old < 2 ^ 64 - 1 }
    requires out_count { W.failed out.old < 2 ^ 64 - 1 }

    // What is written is the listing, or the first fault.
    ensures output { (s : List ℕ) → R.rest source.old ≡ Some s → Meets (list_output s) result (W.told out.old) (W.told out.new) }

    // A read or a write has failed exactly where that is answered.
    ensures read { CountsFailure (result ≡ Err ToolFault.Read) (R.failed source.old) (R.failed source.new) }
    ensures write { CountsFailure (result ≡ Err ToolFault.Write) (W.failed out.old) (W.failed out.new) }
    ensures unread { result ≡ Err ToolFault.Read → Keeps (W.told out.old) (W.told out.new) }

    // Never more is read.
    ensures source { ConsumesAtMost (R.rest source.old) (R.rest source.new) (max_source_bytes + 1) }
    ensures ends { IfOk result IsStatus }
{
    let text = read_up_to(alloc, source, MAX_SOURCE_BYTES + 1)?;
    match assemble(alloc, &text) {
        Err(Refused::Memory) => Err(ToolFault::Memory),
        Err(Refused::Fault(fault)) => refuse_source(alloc, fault, out),
        Ok(program) => list(alloc, &program, out),
    }
}

/// The same with the lines of the program in the columns of the book, as a table of LaTeX, instead of its listing.
pub fn run_typeset<R: In, W: Out>(
    alloc: Global,
    source: &mut R,
    out: &mut W,
) -> Result<u8, ToolFault>
    requires source_count { R.failed source.old < 2 ^ 64 - 1 }
    requires out_count { W.failed out.old < 2 ^ 64 - 1 }
    ensures read { CountsFailure (result ≡ Err ToolFault.Read) (R.failed source.old) (R.failed source.new) }
    ensures write { CountsFailure (result ≡ Err ToolFault.Write) (W.failed out.old) (W.failed out.new) }
    ensures unread { result ≡ Err ToolFault.Read → Keeps (W.told out.old) (W.told out.new) }
    ensures source { ConsumesAtMost (R.rest source.old) (R.rest source.new) (max_source_bytes + 1) }
    ensures ends { IfOk result IsStatus }
{
    let text = read_up_to(alloc, source, MAX_SOURCE_BYTES + 1)?;
    match assemble(alloc, &text) {
        Err(Refused::Memory) => Err(ToolFault::Memory),
        Err(Refused::Fault(fault)) => refuse_source(alloc, fault, out),
        Ok(program) => {
            let table = typeset(alloc, &program, None)?;
            write_all(out, &table)?;
            Ok(DONE)
        }
    }
}
