//! The operation that may be meant where a name is misspelt (1.3.1).

use mix_word::{Decoded, decode};
use std::alloc::{AllocError, Global};

/// The name of the operation that is near to a word, in either case of letters, if one is (1.3.1).
/// Of several it is the first by C and F. Only out of memory refuses it.
pub fn near_to(alloc: Global, word: &[u8]) -> Result<Option<&'static str>, AllocError> {
    let capitals = word.to_ascii_uppercase(alloc)?;
    for code in 0..64 {
        for field in 0..16 {
            if let Decoded::Named(operation) = decode(code, field) {
                if is_near(&capitals, operation.name().as_bytes()) {
                    return Ok(Some(operation.name()));
                }
            }
        }
    }
    for name in ["EQU", "ORIG", "CON", "ALF", "END"] {
        if is_near(&capitals, name.as_bytes()) {
            return Ok(Some(name));
        }
    }
    Ok(None)
}

/// Whether a slip of the hand makes one word of the other: a letter more, a letter less, another
/// letter, or two exchanged. No word is near to itself. It takes no memory.
pub fn is_near(word: &[u8], name: &[u8]) -> bool {
    let common = word.iter().zip(name).take_while(|(a, b)| a == b).count();
    let (left, other) = (
        &word[common.min(word.len())..],
        &name[common.min(name.len())..],
    );
    match (left, other) {
        ([], []) => false,
        ([], [_, rest @ ..]) | ([_, rest @ ..], []) => rest.is_empty(),
        ([x, first @ ..], [y, second @ ..]) => {
            first == other
                || left == second
                || first == second
                || matches!((first, second), ([next, first @ ..], [other, second @ ..])
                    if x == other && next == y && first == second)
        }
    }
}
