//! The entries of a list in a request, and what is read of one.

use rpc_message::{Request, integer, natural};
use serde_json::Value;

/// The entries of a list; none where there is no list.
pub fn entries_of<'r>(request: &'r Request, name: &str) -> &'r [Value] {
    match request.list(name) {
        Some(list) => list,
        None => &[],
    }
}

/// A member that is a text.
pub fn text_in<'v>(name: &str, entry: &'v Value) -> Option<&'v str> {
    entry.get(name)?.as_str()
}

/// A member that is a number, zero or more.
pub fn number_in(name: &str, entry: &Value) -> Option<u64> {
    natural(entry.get(name)?)
}

/// A member that is a whole number.
pub fn integer_in(name: &str, entry: &Value) -> Option<i64> {
    integer(entry.get(name)?)
}
