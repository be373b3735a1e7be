//! What the server can do, and how its client counts.

use crate::params::param;
use crate::place::Encoding;
use mix_refused::Memory;
use rpc_message::member_of;
use serde_json::{Value, json};
use std::alloc::Global;

/// The encoding that a client counts in: the first of those that it names and that is known, or
/// UTF-16.
pub(crate) fn encoding_asked(message: &Value) -> Encoding {
    if let Some(names) = encodings_of(message) {
        for name in names {
            if let Some(encoding) = name.as_str().and_then(Encoding::named) {
                return encoding;
            }
        }
    }
    Encoding::Utf16
}

fn encodings_of(message: &Value) -> Option<&[Value]> {
    let general = member_of(param(message, "capabilities")?, "general")?;
    let names = member_of(general, "positionEncodings")?.as_array()?;
    Some(names.as_slice())
}

/// What `initialize` is answered.
pub(crate) fn abilities(alloc: Global, encoding: Encoding) -> Result<Value, Memory> {
    let tokens = [
        "label", "keyword", "variable", "number", "macro", "string", "comment",
    ];
    let mut kinds = Vec::new(alloc);
    for name in tokens {
        kinds.push(Value::try_from_str(alloc, name)?)?;
    }
    let legend = json!(in alloc; {"tokenTypes": kinds, "tokenModifiers": []})?;
    let capabilities = json!(in alloc; {
        "positionEncoding": encoding.name(),
        "textDocumentSync": {"openClose": true, "change": 2u64},
        "renameProvider": {"prepareProvider": true},
        "completionProvider": {},
        "semanticTokensProvider": {"legend": legend, "full": true},
        "definitionProvider": true,
        "referencesProvider": true,
        "documentHighlightProvider": true,
        "documentSymbolProvider": true,
        "hoverProvider": true,
        "foldingRangeProvider": true,
        "codeActionProvider": true,
        "documentFormattingProvider": true,
        "inlayHintProvider": true
    })?;
    let body = json!(in alloc; {
        "capabilities": capabilities,
        "serverInfo": {"name": "mixrev"}
    })?;
    Ok(body)
}
