//! A row of LaTeX.

use crate::table::Field;
use mix_refused::Memory;
use mix_word::Sign;
use std::alloc::{AllocError, Global};

/// The digits of a number, after a minus if it has one.
pub(super) fn digits(alloc: Global, sign: Sign, magnitude: u128) -> Result<String, AllocError> {
    match sign {
        Sign::Plus => Ok(format!(in alloc; "{magnitude}")?),
        Sign::Minus => Ok(format!(in alloc; "-{magnitude}")?),
    }
}

/// Appends a row; a negative number is a formula.
pub(super) fn add_latex_row(
    alloc: Global,
    fields: &[Field<'_>],
    text: &mut Vec<u8>,
) -> Result<(), Memory> {
    let mut before: &[u8] = b"";
    for field in fields {
        text.extend_from_slice(before)?;
        match field {
            Field::Number(sign, magnitude) => {
                let digits = digits(alloc, *sign, *magnitude)?;
                match sign {
                    Sign::Plus => text.extend_from_slice(digits.as_bytes())?,
                    Sign::Minus => {
                        text.push(b'$')?;
                        text.extend_from_slice(digits.as_bytes())?;
                        text.push(b'$')?;
                    }
                }
            }
            Field::Text(characters) => {
                for byte in characters.as_bytes() {
                    add_byte(text, *byte)?;
                }
            }
            Field::Missing => {}
        }
        before = b" & ";
    }
    text.extend_from_slice(b" \\\\\n")?;
    Ok(())
}

/// Appends a byte of a text, by its name if it has a meaning in TeX.
pub(crate) fn add_byte(text: &mut Vec<u8>, byte: u8) -> Result<(), Memory> {
    match byte {
        b'#' | b'$' | b'%' | b'&' | b'_' | b'{' | b'}' => text.extend_from_slice(&[b'\\', byte])?,
        b'"' => text.extend_from_slice(b"\\char34{}")?,
        b'<' => text.extend_from_slice(b"\\textless{}")?,
        b'>' => text.extend_from_slice(b"\\textgreater{}")?,
        b'\\' => text.extend_from_slice(b"\\textbackslash{}")?,
        b'^' => text.extend_from_slice(b"\\textasciicircum{}")?,
        b'|' => text.extend_from_slice(b"\\textbar{}")?,
        b'~' => text.extend_from_slice(b"\\textasciitilde{}")?,
        _ => text.push(byte)?,
    }
    Ok(())
}
