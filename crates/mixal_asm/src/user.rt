//! The line that a fault at END is about (1.3.2).
ghost use Rattle.std.specs.Prelude.{◌≡◌, ◌^◌, map, option_map, position};
ghost use Rattle.mixal_text.specs.Misread.{IsWithin};
ghost use Rattle.mixal_asm.specs.Prelude.{waits_for, row_value};
ghost use Rattle.mixal_asm.specs.User.{at_use, line_of_word, user_of};

use crate::draft::Draft;
use crate::fault::AsmKind;
use crate::key::Key;
use crate::read::in_line;
use crate::row::{Row, Shows, Source};
use crate::words::Entry;
use mixal_text::Misread;

impl<'s> Draft<'s> {
    /// What END meets, at fault in the ADDRESS of the line that uses this name first.
    pub(crate) fn at_use(&self, name: &Key, misread: Misread) -> AsmKind
        requires { IsWithin 0 (2 ^ 63) misread.at }
        ensures { result ≡ at_use self.now name.now misread }
    {
        match self.user_of(name) {
            Some((line, text)) => AsmKind::Inserted {
                line,
                misread: in_line(text, misread),
            },
            None => AsmKind::Inserted { line: 0, misread },
        }
    }

    // The line whose word is the first that waits for a name.
    fn user_of(&self, name: &Key) -> Option<(u32, &[u8])>
        ensures { option_map (λ line. (line.0, line.1.now)) result ≡ user_of self.now name.now }
    {
        match self.words.first_wait(name) {
            Some(i) => line_of_word(&self.rows, i),
            None => None,
        }
    }
}

// The line of the source whose row shows the word of this number.
fn line_of_word(rows: &[Row], i: usize) -> Option<(u32, &[u8])>
    ensures { option_map (λ line. (line.0, line.1.now)) result ≡ line_of_word (map row_value rows.now) i }
{
    let mut rest = rows;
    while let [row, more @ ..] = rest {
        if matches!(row.shows, Shows::Word(n) if n == i) {
            return match &row.source {
                Source::Line(number, text) => Some((*number, text)),
                Source::Literal(_) | Source::Name(_) => None,
            };
        }
        rest = more;
    }
    None
}

/// The place of the first entry whose word waits for a name.
pub(crate) fn first_wait(entries: &[Entry], name: &Key) -> Option<usize>
    ensures { result ≡ position (λ entry. waits_for name.now entry.emitted.awaits) entries.now }
{
    entries
        .iter()
        .position(|entry| waits_for(name, &entry.emitted.awaits))
}

fn waits_for(name: &Key, awaits: &Option<Key>) -> bool
    ensures { result ≡ waits_for name.now awaits.now }
{
    match awaits {
        Some(awaited) => name == awaited,
        None => false,
    }
}
