//! What is wrong with some sources: their reports, one after the other.

ghost use Rattle.std.specs.Prelude.{◌≡◌, ◌<◌, ◌+◌, ◌-◌, ◌^◌, ◌++◌, ◌∷◌, ◌||◌, [], ℕ, Bool, List, Some, Err, IfErr, IfOk, OnOk, false};
ghost use Rattle.mix_check.specs.Report.{Adds, Report, has_faults};
ghost use Rattle.mix_stream.specs.Stream.{ConsumesAtMost, CountsFailure};
ghost use Rattle.mixal_asm.specs.Assembly.{max_source_bytes};
ghost use Rattle.mix_run.specs.Prelude.{Checks, Named, Reported, IsMemoryOrRead, IsStatus, Meets};

use crate::fault::ToolFault;
use crate::statuses::{DONE, SOURCE_REFUSED};
use mix_check::{add_json_report, add_report};
use mix_refused::Memory;
use mix_stream::{In, Out, read_up_to, write_all};
use mixal_asm::MAX_SOURCE_BYTES;
use std::alloc::Global;

/// The reports of the sources so far, and whether one of them has a fault.
#[derive(Drop)]
pub struct Reports {
    pub text: Vec<u8>,
    pub faulty: bool,
}

/// The reports of no source.
pub fn no_reports(alloc: Global) -> Reports
    ensures text { result.text.items ≡ [] }
    ensures faulty { result.faulty ≡ false }
{
    Reports {
        text: Vec::new(alloc),
        faulty: false,
    }
}

// The report of a source is appended to a text, and whether the source has a fault is answered.
fn add_one(
    alloc: Global,
    name: &str,
    source: &[u8],
    json: bool,
    text: &mut Vec<u8>,
) -> Result<bool, Memory>
    ensures report { OnOk result (Adds (Report json name.now source.now) text.old.items text.new.items) }
    ensures faulty { IfOk result (λ faulty. faulty ≡ has_faults source.now) }
{
    if json {
        add_json_report(alloc, name, source, text)
    } else {
        add_report(alloc, name, source, text)
    }
}

// A source is read and reported.
fn report_source<S: In>(
    alloc: Global,
    name: &str,
    source: &mut S,
    json: bool,
    reports: &mut Reports,
) -> Result<(), ToolFault>
    requires { S.failed source.old < 2 ^ 64 - 1 }
    ensures report { (s : List ℕ) → S.rest source.old ≡ Some s
        → OnOk result (Adds (Report json name.now s) reports.old.text.items reports.new.text.items) }
    ensures faulty { (s : List ℕ) → S.rest source.old ≡ Some s → OnOk result (reports.new.faulty ≡ (reports.old.faulty || has_faults s)) }
    ensures read { CountsFailure (result ≡ Err ToolFault.Read) (S.failed source.old) (S.failed source.new) }
    ensures source { ConsumesAtMost (S.rest source.old) (S.rest source.new) (max_source_bytes + 1) }
    ensures only { IfErr result IsMemoryOrRead }
{
    let text = read_up_to(alloc, source, MAX_SOURCE_BYTES + 1)?;
    let faulty = add_one(alloc, name, &text, json, &mut reports.text)?;
    reports.faulty |= faulty;
    Ok(())
}

/// Reads one source more and reports it under its name (1.3.2): all its faults, as a compiler reports them, or as JSON. At most
/// 1,048,577 bytes are read.
///
/// It fails with T1 if memory is refused, and with T2 if a read fails. After that no source is read.
pub fn report_next<S: In>(
    alloc: Global,
    reports: Result<Reports, ToolFault>,
    name: &str,
    source: &mut S,
    json: bool,
) -> Result<Reports, ToolFault>
    requires source_count { S.failed source.old < 2 ^ 64 - 1 }

    // The report of the source follows those of the ones before it.
    ensures reported { (sources : List Named) (s : List ℕ) → Reported json sources reports → S.rest source.old ≡ Some s
        → Reported json (sources ++ record { name = name.now; text = s } ∷ []) result }

    // A read has failed exactly if that is answered; after a fault nothing is read.
    ensures read { IfOk reports (λ _. CountsFailure (result ≡ Err ToolFault.Read) (S.failed source.old) (S.failed source.new)) }
    ensures ended { IfErr reports (λ fault. (result ≡ Err fault) × (source.new ≡ source.old)) }

    // Never more is read.
    ensures source { ConsumesAtMost (S.rest source.old) (S.rest source.new) (max_source_bytes + 1) }
{
    let mut reports = reports?;
    report_source(alloc, name, source, json, &mut reports)?;
    Ok(reports)
}

/// Writes the reports of sources, or answers the fault that ended their reading. The status is 1 if a source has a fault, else 0.
///
/// It fails with T3 if the write fails.
pub fn write_reports<W: Out>(
    reports: Result<Reports, ToolFault>,
    out: &mut W,
) -> Result<u8, ToolFault>
    requires out_count { W.failed out.old < 2 ^ 64 - 1 }

    // What is written is the reports of exactly these sources, in their order.
    ensures output { (json : Bool) (sources : List Named) → Reported json sources reports
        → Checks json sources (λ outcome. Meets outcome result (W.told out.old) (W.told out.new)) }

    // A write has failed exactly if that is answered; after a fault nothing is written.
    ensures write { IfOk reports (λ _. CountsFailure (result ≡ Err ToolFault.Write) (W.failed out.old) (W.failed out.new)) }
    ensures ended { IfErr reports (λ fault. (result ≡ Err fault) × (out.new ≡ out.old)) }
    ensures written { OnOk result (W.failed out.new ≡ W.failed out.old) }
    ensures ends { IfOk result IsStatus }
{
    let reports = reports?;
    write_all(out, &reports.text)?;
    Ok(if reports.faulty { SOURCE_REFUSED } else { DONE })
}
