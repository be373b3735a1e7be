//! Which source a request is about.

use dap_asked::text_in;
use rpc_message::Request;

/// Whether a request is about the source of this name, which may be the end of its path after a
/// folder; where it says no path, it is.
pub(crate) fn is_source(name: &str, request: &Request) -> bool {
    let source = request.argument("source");
    let Some(path) = source.and_then(|source| text_in("path", source)) else {
        return true;
    };
    match path.as_bytes().strip_suffix(name.as_bytes()) {
        Some([]) | Some([.., b'/']) => true,
        Some(_) | None => false,
    }
}
