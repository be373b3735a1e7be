//! One frame taken off a text, and one put at its end.

ghost use Rattle.std.specs.Prelude.{◌≡◌, ℕ, ◌≤◌, ◌++◌, List, None, IfOk, IfSome, length, option_map, position, string_bytes};
ghost use Rattle.mix_lines.specs.Lines.{whole_lines};
ghost use Rattle.rpc_frame.specs.Frame.{body_in, first_frame, frame_of, header_in, is_colon, is_ended, length_in, names_length, max_body, whole};
ghost use Rattle.rpc_frame.specs.Next.{first_of};

use mix_lines::{Words, line_text, number, split_whole_line};
use std::alloc::{AllocError, Global};

/// The most bytes that a header may have.
pub const MAX_HEADER: usize = 4_096;

/// The most bytes that a body may have.
pub const MAX_BODY: usize = 134_217_728;

/// What stands at the beginning of a text.
#[derive(Clone, Copy)]
pub enum Next<'t> {
    /// A whole frame: its body, and what follows it.
    Body(&'t [u8], &'t [u8]),
    /// A header that gives no length of a body, and what follows it.
    NoLength(&'t [u8]),
    /// A beginning of a frame, perhaps of no byte.
    Partial,
    /// A header or a body that is longer than it may be.
    TooLong,
}

/// What a header says: the length of the body, if it gives one, and how many bytes the header has, its blank line included.
#[derive(Clone, Copy)]
struct Header {
    length: Option<u64>,
    end: usize,
}

/// The first frame of a text. The lines of a header end with a line feed, before which a carriage return may stand; the first one that is
/// empty ends the header; `Content-Length: N` gives the length of the body in bytes, in one to ten digits, and the last of these decides; other lines
/// say nothing.
pub fn next_frame(text: &[u8]) -> Next<'_>
    ensures first { first_of result ≡ first_frame text.now }

    // What `frame` gives reads back, whatever follows it.
    ensures reads_back { (body rest : List ℕ) → length body ≤ max_body → text.now ≡ frame_of body ++ rest → first_of result ≡ whole body rest }
{
    let most = MAX_HEADER.min(text.len());
    match read_header(&text[..most]) {
        Some(header) => body(header.length, &text[header.end..]),
        None if text.len() < MAX_HEADER => Next::Partial,
        None => Next::TooLong,
    }
}

// The header at the beginning of a text, if its blank line is there.
fn read_header(text: &[u8]) -> Option<Header>
    ensures header { option_map (λ h. (h.length, h.end)) result ≡ header_in None 0 (whole_lines text.now) }
    ensures within { IfSome result (λ h. h.end ≤ length text.now) }
{
    let mut length = None;
    let mut rest = text;
    while !rest.is_empty() {
        let (whole, after) = split_whole_line(rest);
        if !is_ended(whole) {
            return None;
        }
        let line = line_text(whole);
        if line.is_empty() {
            let end = text.len() - after.len();
            return Some(Header { length, end });
        }
        length = length_in(line).or(length);
        rest = after;
    }
    None
}

// Whether a line ends with a line feed.
fn is_ended(line: &[u8]) -> bool
    ensures { result ≡ is_ended line.now }
{
    matches!(line, [.., b'\n'])
}

// The length that a line of a header gives.
fn length_in(line: &[u8]) -> Option<u64>
    ensures { result ≡ length_in line.now }
{
    let colon = colon_in(line)?;
    let (name, value) = (&line[..colon], &line[colon + 1..]);
    if !names_length(name) {
        return None;
    }
    number(Words::of(value).next()?)
}

fn colon_in(line: &[u8]) -> Option<usize>
    ensures { result ≡ position is_colon line.now }
{
    line.iter().position(|byte| *byte == b':')
}

fn names_length(name: &[u8]) -> bool
    ensures { result ≡ names_length name.now }
{
    name.eq_ignore_ascii_case(b"content-length")
}

// The body of a length at the beginning of a text.
fn body(length: Option<u64>, text: &[u8]) -> Next<'_>
    ensures { first_of result ≡ body_in length text.now }
{
    let Some(length) = length else {
        return Next::NoLength(text);
    };
    if length > MAX_BODY as u64 {
        return Next::TooLong;
    }
    let length = length as usize;
    if text.len() < length {
        return Next::Partial;
    }
    Next::Body(&text[..length], &text[length..])
}

/// The frame of a body: its length in bytes, a blank line, and the body. Only out of memory refuses it.
#[tactic(auto, unfolding(crate::specs::Frame::frame_of))]
pub fn frame(alloc: Global, body: &str) -> Result<String, AllocError>
    ensures { IfOk result (λ text. string_bytes text ≡ frame_of body.now) }
{
    let length = body.len();
    let text = format!(in alloc; "Content-Length: {length}\r\n\r\n{body}")?;
    Ok(text)
}
