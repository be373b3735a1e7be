//! A check of the sources of some files.

ghost use Rattle.std.specs.Prelude.{◌≡◌, ◌≢◌, ◌<◌, ◌≤◌, ◌-◌, ◌^◌, ◌++◌, ◌∷◌, [], List, None, Some, IfErr, IfOk, map, string_bytes};
ghost use Rattle.mix_run.specs.Prelude.{Checks, Named, Reported, Asks, Files, Opens, asked_of, missing_of, opened_text};
ghost use Rattle.mix_tool.specs.Ending.{Runs};
ghost use Rattle.mix_tool.specs.Plan.{DoneAfter, named_of, seen};

use crate::ending::{status, tell_not_opened};
use crate::texts::NotOpened;
use mix_run::{Opener, Reports, Streams, ToolFault, no_reports, report_next, write_reports};
use mix_stream::{In, Out};
use std::alloc::Global;

// One file more is opened, and its source is read and reported; after a fault it is not read.
fn report_file<'n, O: Opener>(
    files: &mut O,
    alloc: Global,
    reports: Result<Reports, ToolFault>,
    name: &'n str,
    json: bool,
) -> Result<Result<Reports, ToolFault>, NotOpened<'n>>
    ensures opened { (all : Files) → O.holds files.old ≡ Some all
        → IfOk result (λ _. Opens all (name.entry.now ∷ []) (O.asked files.old) (O.asked files.new) None) }
    ensures missing { (all : Files) → O.holds files.old ≡ Some all
        → IfErr result (λ e. Opens all (name.entry.now ∷ []) (O.asked files.old) (O.asked files.new) (Some (e.name.now, e.reason))) }
    ensures reported { (all : Files) (before : List Named) → O.holds files.old ≡ Some all → Reported json before reports
        → IfOk result (Reported json (before ++ record { name = name.entry.now; text = opened_text (all name.entry.now) } ∷ [])) }
    ensures same { O.holds files.new ≡ O.holds files.old }
{
    match files.open(name) {
        Ok(reader) => {
            let mut source = reader;
            Ok(report_next(alloc, reports, name, &mut source, json))
        }
        Err(reason) => Err(NotOpened { name, reason }),
    }
}

// The file that was read last: the one of a name, unless there was a fault before.
fn last_read<'n>(
    reports: &Result<Reports, ToolFault>,
    before: Option<&'n str>,
    name: &'n str,
) -> Option<&'n str> {
    match (reports, before) {
        (Err(_), Some(file)) => Some(file),
        _ => Some(name),
    }
}

// The reports of the sources of some files, up to the first that can't be opened, and the file that was read last.
fn report_files<'n, O: Opener>(
    files: &mut O,
    alloc: Global,
    sources: &'n [String],
    json: bool,
) -> Result<(Result<Reports, ToolFault>, Option<&'n str>), NotOpened<'n>>
    ensures opened { (all : Files) → O.holds files.old ≡ Some all
        → IfOk result (λ _. Opens all (map string_bytes sources.entry.now) (O.asked files.old) (O.asked files.new) None) }
    ensures missing { (all : Files) → O.holds files.old ≡ Some all
        → IfErr result (λ e. Opens all (map string_bytes sources.entry.now) (O.asked files.old) (O.asked files.new) (Some (e.name.now, e.reason))) }
    ensures reported { (all : Files) → O.holds files.old ≡ Some all
        → IfOk result (λ r. Reported json (named_of all (map string_bytes sources.entry.now)) r.0) }
{
    let mut reports = Ok(no_reports(alloc));
    let mut file = None;
    let mut rest = sources;
    while let [name, after @ ..] = rest {
        file = last_read(&reports, file, name.as_str());
        reports = report_file(files, alloc, reports, name, json)?;
        rest = after;
    }
    Ok((reports, file))
}

/// The check of the sources of some files: each is opened, read and reported before the next is opened, and all reports are
/// written when all are read. If one can't be opened, that is told, and nothing is written.
pub(crate) fn check_files<O: Opener, R: In, W: Out, E: Out>(
    files: &mut O,
    alloc: Global,
    sources: &[String],
    json: bool,
    streams: &mut Streams<R, W, E>,
) -> u8
    requires out_count { W.failed streams.old.out < 2 ^ 64 - 1 }
    ensures opened { (all : Files) → O.holds files.old ≡ Some all
        → Asks (O.asked files.old) (O.asked files.new) (asked_of all (map string_bytes sources.now)) }
    ensures done { (all : Files) → O.holds files.old ≡ Some all → let names = map string_bytes sources.now in
        DoneAfter (missing_of all names)
        (Checks json (named_of all names) (λ outcome. Runs outcome result (seen R.rest W.told (O.refusal files.old) streams.old) (seen R.rest W.told (O.refusal files.new) streams.new)))
        result (seen R.rest W.told (O.refusal files.old) streams.old) (seen R.rest W.told (O.refusal files.new) streams.new) }
    ensures input { streams.new.input ≡ streams.old.input }
    ensures range { result ≤ 3 }
    ensures written { result ≢ 2 → W.failed streams.new.out ≡ W.failed streams.old.out }
    ensures quiet { result ≢ 2 → streams.new.errors ≡ streams.old.errors }
{
    match report_files(files, alloc, sources, json) {
        Ok((reports, file)) => {
            let outcome = write_reports(reports, &mut streams.out);
            status(alloc, outcome, file, &mut streams.errors)
        }
        Err(fault) => tell_not_opened(alloc, fault.name, fault.reason, &mut streams.errors),
    }
}
