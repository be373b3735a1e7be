//! A text beside another one, line by line: its layout, and its listing.

use crate::look::Open;
use mix_lines::{is_blank, line_text};
use mix_refused::{Memory, Refused};
use mix_stream::Counted;
use mixal_asm::{MAX_SOURCE_BYTES, assemble};
use mixal_layout::lay_out;
use mixal_text::Span;
use serde_json::{Value, json};

impl<'t> Open<'t> {
    /// An edit for each line of a text that its layout has otherwise. There is none if the text or
    /// its layout is longer than a source may be.
    pub(crate) fn formatted(&self) -> Result<Value, Memory> {
        let mut list = Vec::new(self.alloc);
        let laid = lay_out(self.alloc, self.text)?;
        if self.text.len().max(laid.len()) > MAX_SOURCE_BYTES {
            return Ok(Value::Array(list));
        }
        let mut finder = self.finder();
        let mut others = laid.split(|byte| *byte == b'\n');
        let mut number: u32 = 0;
        for line in self.text.split(|byte| *byte == b'\n') {
            let old = line_text(line);
            let new = line_text(others.next().unwrap_or(&[]));
            if old != new {
                let new = String::from_utf8_lossy(self.alloc, new)?;
                let at = Span {
                    from: 0,
                    to: old.len(),
                };
                list.push(finder.edit(number, at, new.as_str())?)?;
            }
            number = number.saturating_add(1);
        }
        Ok(Value::Array(list))
    }

    /// Behind each line of a range that makes a word its location and that word, as the listing has
    /// them; none where the text has a fault.
    pub(crate) fn hints(&self, lines: (u64, u64)) -> Result<Value, Memory> {
        let (first, last) = lines;
        let mut list = Vec::new(self.alloc);
        let Some(listing) = self.listing()? else {
            return Ok(Value::Array(list));
        };
        let mut finder = self.finder();
        let mut rows = listing.split(|byte| *byte == b'\n');
        let mut number: u32 = 0;
        for line in self.text.split(|byte| *byte == b'\n') {
            let row = rows.next().unwrap_or(&[]);
            if first <= u64::from(number) && u64::from(number) <= last && shows_word(row) {
                let at = finder.place(number, line_text(line).len());
                let word = String::from_utf8_lossy(self.alloc, &row[..row.len().min(22)])?;
                let hint = json!(in self.alloc; {
                    "position": {"line": at.line, "character": at.character},
                    "label": word,
                    "paddingLeft": true
                })?;
                list.push(hint)?;
            }
            number = number.saturating_add(1);
        }
        Ok(Value::Array(list))
    }

    // The listing of a text that has no fault.
    fn listing(&self) -> Result<Option<Vec<u8>>, Memory> {
        match assemble(self.alloc, self.text) {
            Ok(program) => {
                let mut out = Counted::of(Vec::new(self.alloc));
                match program.write_listing(self.alloc, &mut out) {
                    Ok(()) => Ok(Some(out.inner)),
                    Err(_) => Err(Memory),
                }
            }
            Err(Refused::Fault(_)) => Ok(None),
            Err(Refused::Memory) => Err(Memory),
        }
    }
}

// Whether a row of the listing has a location, a word, and the number of a line.
fn shows_word(row: &[u8]) -> bool {
    [0, 6, 28].iter().all(|count| row.get(*count).is_some_and(|byte| !is_blank(*byte)))
}
