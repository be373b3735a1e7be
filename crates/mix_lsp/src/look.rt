//! What a client asks of an open text.

use crate::finder::Finder;
use crate::params::{param, place_in, range_in};
use crate::place::{Encoding, Spot, spot_of};
use mix_refused::Memory;
use rpc_message::member_of;
use serde_json::{Value, json};
use std::alloc::Global;

/// What is asked: of the name at a place its definitions, its mentions as a list or to be marked,
/// its bytes, and a new name for it; what is said of what stands at a place, and what completes it;
/// of the lines of a range what mends them, and what they make; or of a text all names that it
/// defines, its remarks, what puts it in columns, and the kinds of its parts.
#[derive(Clone, Copy)]
pub(crate) enum Look {
    Definition,
    References,
    Highlight,
    Prepare,
    Rename,
    Hover,
    Completion,
    Actions,
    Hints,
    Symbols,
    Folds,
    Format,
    Tokens,
}

impl Look {
    /// By the name of its method, letter for letter.
    pub(crate) fn named(method: &str) -> Option<Look> {
        let look = match method {
            "textDocument/definition" => Look::Definition,
            "textDocument/references" => Look::References,
            "textDocument/documentHighlight" => Look::Highlight,
            "textDocument/prepareRename" => Look::Prepare,
            "textDocument/rename" => Look::Rename,
            "textDocument/hover" => Look::Hover,
            "textDocument/completion" => Look::Completion,
            "textDocument/documentSymbol" => Look::Symbols,
            "textDocument/foldingRange" => Look::Folds,
            "textDocument/codeAction" => Look::Actions,
            "textDocument/formatting" => Look::Format,
            "textDocument/inlayHint" => Look::Hints,
            "textDocument/semanticTokens/full" => Look::Tokens,
            _ => return None,
        };
        Some(look)
    }
}

/// An open text.
#[derive(Clone, Copy)]
pub(crate) struct Open<'t> {
    pub alloc: Global,
    pub uri: &'t str,
    pub encoding: Encoding,
    pub text: &'t [u8],
}

impl<'t> Open<'t> {
    /// The body of the answer, or nothing where the parameters are not what they have to be.
    pub(crate) fn shown(&self, look: Look, message: &Value) -> Result<Option<Value>, Memory> {
        let body = match (look, self.spot_asked(message), self.lines_asked(message)) {
            (Look::Symbols, _, _) => self.symbols()?,
            (Look::Folds, _, _) => self.folds()?,
            (Look::Format, _, _) => self.formatted()?,
            (Look::Tokens, _, _) => self.tokens()?,
            (Look::Actions, _, Some(lines)) => self.actions(lines)?,
            (Look::Hints, _, Some(lines)) => self.hints(lines)?,
            (Look::Definition, Some(at), _) => self.definitions(at)?,
            (Look::References, Some(at), _) => self.references(at, with_definitions(message))?,
            (Look::Highlight, Some(at), _) => self.highlights(at)?,
            (Look::Prepare, Some(at), _) => self.range_or_null(at)?,
            (Look::Rename, Some(at), _) => {
                let new = param(message, "newName").and_then(Value::as_str);
                return self.renamed(at, new);
            }
            (Look::Hover, Some(at), _) => self.hover(at)?,
            (Look::Completion, Some(at), _) => self.completion(at)?,
            _ => return Ok(None),
        };
        Ok(Some(body))
    }

    pub(crate) fn finder(&self) -> Finder<'t> {
        Finder::of(self.alloc, self.encoding, self.text)
    }

    fn spot_asked(&self, message: &Value) -> Option<Spot> {
        let at = place_in(param(message, "position")?)?;
        Some(spot_of(self.encoding, self.text, at))
    }

    // The first and the last line of a range.
    fn lines_asked(&self, message: &Value) -> Option<(u64, u64)> {
        let (from, to) = range_in(param(message, "range")?)?;
        let first = spot_of(self.encoding, self.text, from).line;
        let last = spot_of(self.encoding, self.text, to).line;
        Some((first, last))
    }

    /// Edits of the text.
    pub(crate) fn workspace_edit(&self, edits: Vec<Value>) -> Result<Value, Memory> {
        let edit = json!(in self.alloc; {"changes": {(self.uri): edits}})?;
        Ok(edit)
    }
}

// Whether the definitions are wanted among the uses.
fn with_definitions(message: &Value) -> bool {
    match param(message, "context").and_then(|c| member_of(c, "includeDeclaration")) {
        Some(flag) => flag.as_bool().unwrap_or(true),
        None => true,
    }
}
