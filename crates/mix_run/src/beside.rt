//! What is wrong with a source, told beside its run, on the error output.

use mix_check::add_report;
use mix_stream::{Out, write_all};
use std::alloc::Global;

/// Tells the report of a source, its faults and warnings, or its warnings alone where it has no fault, unless a write has failed there before. If memory
/// runs out, or what is told cannot be written, nothing more is told, and the run goes on.
pub fn tell_report<E: Out>(alloc: Global, name: &str, source: &[u8], errors: &mut E) {
    if errors.failures() == 0 {
        let mut text = Vec::new(alloc);
        if add_report(alloc, name, source, &mut text).is_ok() {
            let _ = write_all(errors, &text);
        }
    }
}
