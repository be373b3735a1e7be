//! Places in a text as the protocol counts them.

ghost use Rattle.std.specs.Prelude.{◌≡◌, ◌≤◌, ◌<◌, true, length};
ghost use Rattle.mixal_text.specs.Parts.{is_new};
ghost use Rattle.mix_lsp.specs.Edit.{IsBoundary};

/// What counts as one: a byte of UTF-8, a unit of UTF-16, or a character, which is a unit of
/// UTF-32.
#[derive(Clone, Copy)]
pub enum Encoding {
    Utf8,
    Utf16,
    Utf32,
}

impl Encoding {
    /// The one of a name of the protocol.
    pub(crate) fn named(name: &str) -> Option<Encoding> {
        match name {
            "utf-8" => Some(Encoding::Utf8),
            "utf-16" => Some(Encoding::Utf16),
            "utf-32" => Some(Encoding::Utf32),
            _ => None,
        }
    }

    pub(crate) fn name(self) -> &'static str {
        match self {
            Encoding::Utf8 => "utf-8",
            Encoding::Utf16 => "utf-16",
            Encoding::Utf32 => "utf-32",
        }
    }

    /// What a byte of a text in UTF-8 adds to the count: a character is counted at its first byte.
    pub(crate) fn units(self, byte: u8) -> u64
        ensures { 0 < result → is_new byte ≡ true }
    {
        if 128 <= byte && byte < 192 {
            return 0;
        }
        match self {
            Encoding::Utf8 if byte >= 240 => 4,
            Encoding::Utf8 if byte >= 224 => 3,
            Encoding::Utf8 if byte >= 192 => 2,
            Encoding::Utf16 if byte >= 240 => 2,
            _ => 1,
        }
    }
}

/// A place in a text: its line, and how many units of the line stand before it, both from 0.
#[derive(Clone, Copy)]
pub(crate) struct Place {
    pub line: u64,
    pub character: u64,
}

/// How many bytes of a text stand before a place. A line that there is not is behind the text, a
/// character that there is not is behind its line, and a place within a character is where that
/// begins.
pub(crate) fn byte_at(encoding: Encoding, text: &[u8], at: Place) -> usize
    ensures within { result ≤ length text.now }
    ensures whole { IsBoundary text.now result }
{
    let mut line = 0;
    let mut left = at.character;
    for index in 0..text.len() {
        let byte = text[index];
        let is_end = byte == b'\n' || byte == b'\r';
        if line < at.line {
            if is_end && !(byte == b'\r' && text[index + 1..].starts_with(b"\n")) {
                line += 1;
            }
            continue;
        }
        let units = encoding.units(byte);
        if is_end || left < units {
            return index;
        }
        left -= units;
    }
    text.len()
}

/// A byte of a line, both counted from 0. A line feed alone ends a line here.
#[derive(Clone, Copy)]
pub(crate) struct Spot {
    pub line: u64,
    pub byte: u64,
}

/// The byte at a place.
pub(crate) fn spot_of(encoding: Encoding, text: &[u8], at: Place) -> Spot {
    let front = &text[..byte_at(encoding, text, at)];
    let line = front.iter().filter(|byte| **byte == b'\n').count();
    let start = match front.iter().rposition(|byte| *byte == b'\n') {
        Some(end) => end + 1,
        None => 0,
    };
    Spot {
        line: line as u64,
        byte: (front.len() - start) as u64,
    }
}
