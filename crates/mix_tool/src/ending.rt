//! How a run ends: its status, and the lines on the error output.

ghost use Rattle.std.specs.Prelude.{◌≡◌, OnOk};
ghost use Rattle.mix_tool.specs.Ending.{status_of_run};

use mix_cli::FAILED;
use mix_run::{Reason, ToolFault};
use mix_stream::{Out, write_all};
use std::alloc::{AllocError, Global};

/// Of a source and other files the one of which a read has failed, as the failures of the others say.
pub(crate) fn unread<'n>(source: &'n str, others: &[(Option<&'n str>, u64)]) -> &'n str {
    for (name, failures) in others {
        match name {
            Some(name) if *failures > 0 => return name,
            _ => {}
        }
    }
    source
}

/// A line on the error output, or where memory is refused for it the line that says so. Where a write there has failed, nothing more is written, and
/// the status alone says what went wrong.
pub(crate) fn tell<E: Out>(line: Result<String, AllocError>, errors: &mut E) {
    if errors.failures() == 0 {
        let told = match line {
            Ok(text) => write_all(errors, text.as_bytes()),
            Err(_) => write_all(errors, b"mixrev: T1 out of memory\n"),
        };
        let _ = told;
    }
}

/// The line of a file that can't be opened.
pub(crate) fn not_opened_line(
    alloc: Global,
    name: &str,
    reason: Reason,
) -> Result<String, AllocError> {
    let reason = reason.text();
    format!(in alloc; "mixrev: T4 not opened: {name}{reason}\n")
}

/// A file that could not be opened is told.
pub(crate) fn tell_not_opened<E: Out>(
    alloc: Global,
    name: &str,
    reason: Reason,
    errors: &mut E,
) -> u8
    ensures { result ≡ 2 }
{
    tell(not_opened_line(alloc, name, reason), errors);
    FAILED
}

/// The status of a run; its fault is told, of a read that failed with the file.
pub(crate) fn status<E: Out>(
    alloc: Global,
    outcome: Result<u8, ToolFault>,
    file: Option<&str>,
    errors: &mut E,
) -> u8
    ensures status { result ≡ status_of_run outcome }
    ensures quiet { OnOk outcome (errors.new ≡ errors.old) }
{
    match outcome {
        Ok(status) => status,
        Err(fault) => {
            let line = match (fault, file) {
                (ToolFault::Read, Some(name)) => format!(in alloc; "mixrev: {fault}: {name}\n"),
                _ => format!(in alloc; "mixrev: {fault}\n"),
            };
            tell(line, errors);
            FAILED
        }
    }
}
