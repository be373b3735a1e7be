//! What other assemblers take, and what to write in its place (1.3.2).

use mixal_text::{Mnemonic, is_without_operand, line_op};

/// How many bytes the mark has with which a comment of another language begins, or 0.
pub(crate) fn comment_mark(piece: &[u8]) -> usize {
    match piece {
        [b'*' | b';' | b'#', ..] => 1,
        [b'/', b'/', ..] => 2,
        _ => 0,
    }
}

const COMMENT_RULE: &str = ": a comment begins with * in column 1";

/// What is said of what stands in the place of OP, if it is known from elsewhere.
pub(crate) fn operation_note(piece: &[u8]) -> &'static str {
    if comment_mark(piece) > 0 {
        return COMMENT_RULE;
    }
    match piece {
        b"FADD" | b"FSUB" | b"FMUL" | b"FDIV" | b"FCMP" | b"FLOT" | b"FIX" => {
            ": floating-point arithmetic is left out of this machine"
        }
        b"SLB" | b"SRB" | b"JAE" | b"JAO" | b"JXE" | b"JXO" => {
            ": the operations of binary computers are left out of this machine"
        }
        _ => "",
    }
}

/// What is said of what stands in the place of LOC, if it is known from elsewhere.
pub(crate) fn symbol_note(piece: &[u8]) -> &'static str {
    if comment_mark(piece) > 0 {
        COMMENT_RULE
    } else if piece.contains(&b':') {
        ": a label has no colon"
    } else {
        ""
    }
}

/// What is said of a line on which a remark may stand in the place of ADDRESS.
pub(crate) fn remark_note(line: &[u8]) -> &'static str {
    match line_op(line) {
        Ok(Mnemonic::Machine(operation)) if is_without_operand(operation) => {
            ": a remark after HLT, NUM or CHAR begins with a letter"
        }
        _ => "",
    }
}
