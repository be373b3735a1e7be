//! What a word processor or another system writes, and the Greek letters of MIX: what each is, and what to write in its place.

use std::alloc::{AllocError, Global};

/// What a character of UTF-8 or a byte is that is known from elsewhere, and what to write in its place; nothing for any other one.
pub(crate) fn foreign_text(bytes: &[u8]) -> &'static str {
    match bytes {
        [0 | 254 | 255] => ": a byte of UTF-16: save the source as UTF-8",
        [12] => ": a form feed: leave it out",
        [13] => ": a carriage return alone: end each line with a line feed",
        [194, 160] => ": a blank of a word processor: write a blank",
        [206, 148] => ": the Greek letter delta: write ~",
        [206, 163] => ": the Greek letter sigma: write [",
        [206, 160] => ": the Greek letter pi: write #",
        [239, 187, 191] => ": a byte order mark: save the source without it",
        [226, 136, 146] => ": a minus sign of a word processor: write -",
        [226, 128, 147 | 148] => ": a dash of a word processor: write -",
        [226, 128, 152 | 153] => ": a quotation mark of a word processor: write '",
        [226, 128, 156 | 157] => ": a quotation mark of a word processor: write \"",
        _ => "",
    }
}

/// The number of a character that cannot be seen, or of a blank that is none of MIXAL.
fn unseen(bytes: &[u8]) -> Option<u32> {
    let character = str::from_utf8(bytes).ok()?.chars().next()?;
    let code = u32::from(character);
    match code {
        0..=8 | 11 | 14..=31 | 127..=159 | 0xAD | 0x61C | 0x180B..=0x180E => Some(code),
        0x2000..=0x200F | 0x2028..=0x202F | 0x205F..=0x206F | 0x3000 => Some(code),
        0xFE00..=0xFE0F | 0xFEFF | 0xFFF9..=0xFFFB | 0xE0000..=0xE0FFF => Some(code),
        _ => None,
    }
}

fn is_wide_blank(code: u32) -> bool {
    matches!(code, 0x2000..=0x200A | 0x202F | 0x205F | 0x3000)
}

/// What is said of a character that cannot be seen, by its number; nothing of any other one.
pub(crate) fn unseen_text(alloc: Global, bytes: &[u8]) -> Result<String, AllocError> {
    match unseen(bytes) {
        Some(code) if is_wide_blank(code) => format!(in alloc; ": U+{code:04X}: write a blank"),
        Some(code) => format!(in alloc; ": U+{code:04X}, which cannot be seen: leave it out"),
        None => Ok(String::new(alloc)),
    }
}

/// What to write in place of a character of UTF-8 or a byte, where that is known.
pub(crate) fn replacement(bytes: &[u8]) -> Option<&'static str> {
    let text = match bytes {
        [12] | [239, 187, 191] => "",
        [194, 160] => " ",
        [206, 148] => "~",
        [206, 163] => "[",
        [206, 160] => "#",
        [226, 136, 146] | [226, 128, 147 | 148] => "-",
        [226, 128, 152 | 153] => "'",
        [226, 128, 156 | 157] => "\"",
        _ if is_wide_blank(unseen(bytes)?) => " ",
        _ => "",
    };
    Some(text)
}
