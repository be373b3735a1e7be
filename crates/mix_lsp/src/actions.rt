//! What mends the diagnostics of a text.

use crate::finder::Finder;
use crate::look::Open;
use crate::mending::{Found, Mending};
use crate::published::span_of;
use mix_refused::Memory;
use mixal_asm::diagnose;
use serde_json::{Value, json};

impl<'t> Open<'t> {
    /// What mends the diagnostics between two lines.
    pub(crate) fn actions(&self, lines: (u64, u64)) -> Result<Value, Memory> {
        let (first, last) = lines;
        let mentions = self.mentions()?;
        let mut finder = self.finder();
        let mut list = Vec::new(self.alloc);
        for diagnostic in &diagnose(self.alloc, self.text)? {
            let number = diagnostic.line.saturating_sub(1);
            if first <= u64::from(number) && u64::from(number) <= last {
                let found = Found {
                    alloc: self.alloc,
                    mentions: &mentions,
                    line: finder.line(number),
                    at: span_of(diagnostic.at),
                };
                if let Some(mending) = found.mending(&diagnostic.finding)? {
                    list.push(self.action(&mut finder, number, &mending)?)?;
                }
            }
        }
        Ok(Value::Array(list))
    }

    fn action(
        &self,
        finder: &mut Finder<'_>,
        number: u32,
        mending: &Mending,
    ) -> Result<Value, Memory> {
        let mut edits = Vec::new(self.alloc);
        edits.push(finder.edit(number, mending.at, mending.text.as_str())?)?;
        let edit = self.workspace_edit(edits)?;
        let action = json!(in self.alloc; {
            "title": mending.title.as_str(),
            "kind": "quickfix",
            "edit": edit
        })?;
        Ok(action)
    }
}
