//! Remarks that can be folded.

use crate::finder::Finder;
use crate::look::Open;
use mix_lines::is_comment;
use mix_refused::Memory;
use mixal_asm::MAX_SOURCE_BYTES;
use serde_json::{Value, json};

impl<'t> Open<'t> {
    /// Each run of remarks, of two lines or more.
    pub(crate) fn folds(&self) -> Result<Value, Memory> {
        let mut list = Vec::new(self.alloc);
        if self.text.len() <= MAX_SOURCE_BYTES {
            let mut finder = self.finder();
            let mut start = 0;
            let mut end = 0;
            for line in self.text.split(|byte| *byte == b'\n') {
                if !is_comment(line) {
                    self.add_fold(&mut list, &mut finder, start, end)?;
                    start = end.saturating_add(1);
                }
                end = end.saturating_add(1);
            }
            self.add_fold(&mut list, &mut finder, start, end)?;
        }
        Ok(Value::Array(list))
    }

    // The lines from one up to another, if there are two of them or more.
    fn add_fold(
        &self,
        list: &mut Vec<Value>,
        finder: &mut Finder<'_>,
        start: u32,
        end: u32,
    ) -> Result<(), Memory> {
        if start.saturating_add(2) <= end {
            let first = finder.place(start, 0).line;
            let last = finder.place(end.saturating_sub(1), 0).line;
            let fold = json!(in self.alloc; {
                "startLine": first,
                "endLine": last,
                "kind": "comment"
            })?;
            list.push(fold)?;
        }
        Ok(())
    }
}
