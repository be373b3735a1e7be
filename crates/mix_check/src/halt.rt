//! A program without a HLT (1.3.1).

use crate::report::has_fault;
use mix_lines::{is_comment, split_line};
use mix_word::Operation;
use mixal_asm::Diagnostic;
use mixal_text::{Mnemonic, line_is_end, line_op};

/// The line of the last instruction of a source that has no fault and, up to END, no HLT (1.3.1): a run may go on behind it. The source is
/// given with all that there is to say of it.
pub fn no_halt(source: &[u8], diagnostics: &[Diagnostic]) -> Option<u64> {
    if has_fault(diagnostics) {
        return None;
    }
    let mut last = None;
    let mut rest = source;
    for number in 1..u64::MAX {
        if rest.is_empty() {
            break;
        }
        let (line, after) = split_line(rest);
        rest = after;
        if is_comment(line) {
            continue;
        }
        match line_op(line) {
            Ok(Mnemonic::Machine(Operation::Hlt)) => return None,
            Ok(Mnemonic::Machine(_)) => last = Some(number),
            _ => {}
        }
        if line_is_end(line) {
            break;
        }
    }
    last
}

/// What is said of it.
pub fn no_halt_text() -> &'static str {
    "no line is a HLT: a run may go on into what stands behind the program"
}
