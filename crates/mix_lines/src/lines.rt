//! The lines of a text.

ghost use Rattle.std.specs.Prelude.{◌≡◌, ◌<◌, ◌∷◌, ◌++◌, length, position};
ghost use Rattle.std.specs.List.{after_first};
ghost use Rattle.std.specs.Str.Lines.{strip_carriage_return};
ghost use Rattle.mix_lines.specs.Lines.{is_line_feed, is_blank, is_comment, strip_line_feed, text_of_line, whole_lines, lines};

/// The first line of a text with the line feed that ends it, and the text after it. The last line may have no line feed.
pub fn split_whole_line(text: &[u8]) -> (&[u8], &[u8])
    requires { 0 < length text.now }
    ensures lines { whole_lines text.now ≡ result.0.now ∷ whole_lines result.1.now }
    ensures parts { text.now ≡ result.0.now ++ result.1.now }
    ensures rest { result.1.now ≡ after_first is_line_feed text.now }
    ensures shorter { length result.1.now < length text.now }
{
    match line_feed_in(text) {
        Some(end) => (&text[..end + 1], &text[end + 1..]),
        None => (text, &text[text.len()..]),
    }
}

/// The first line of a text without its line end, and the text after that line end.
#[tactic(auto, unfolding(crate::specs::Lines::lines))]
pub fn split_line(text: &[u8]) -> (&[u8], &[u8])
    requires { 0 < length text.now }
    ensures lines { lines text.now ≡ result.0.now ∷ lines result.1.now }
    ensures rest { result.1.now ≡ after_first is_line_feed text.now }
    ensures shorter { length result.1.now < length text.now }
{
    let (line, rest) = split_whole_line(text);
    (line_text(line), rest)
}

/// A line without its line end: a line feed, and one carriage return before it or at the end of the text.
pub fn line_text(line: &[u8]) -> &[u8]
    ensures { result.now ≡ text_of_line line.now }
{
    without_return(without_line_feed(line))
}

/// Whether a line is a comment: its first byte is `*`.
pub fn is_comment(line: &[u8]) -> bool
    ensures { result ≡ is_comment line.now }
{
    line.starts_with(b"*")
}

/// Whether a byte separates words: a space or a tab.
pub fn is_blank(byte: u8) -> bool
    ensures { result ≡ is_blank byte }
{
    byte == b' ' || byte == b'\t'
}

fn line_feed_in(text: &[u8]) -> Option<usize>
    ensures { result ≡ position is_line_feed text.now }
{
    text.iter().position(|byte| *byte == b'\n')
}

fn without_line_feed(line: &[u8]) -> &[u8]
    ensures { result.now ≡ strip_line_feed line.now }
{
    match line {
        [text @ .., b'\n'] => text,
        _ => line,
    }
}

fn without_return(line: &[u8]) -> &[u8]
    ensures { result.now ≡ strip_carriage_return line.now }
{
    match line {
        [text @ .., b'\r'] => text,
        _ => line,
    }
}
