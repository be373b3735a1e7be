//! Characters of UTF-8 that a terminal may be given.

ghost use Rattle.std.specs.Prelude.{◌≡◌, ◌++◌, ◌+◌, ◌*◌, ◌-◌, ◌<◌, ◌≤◌, ◌^◌, OnOk};
ghost use Rattle.mix_shown.specs.Character.{goes_on, is_ascii_shown, is_four_shown, is_three_shown, is_two_shown, left_at, shown, shown_length};

use std::alloc::AllocError;

/// Among what the bytes stand: in a line, where a tab alone is shown of the control characters; or in a text of lines, where line feeds and form feeds are too.
#[derive(Clone, Copy)]
pub enum Among {
    Line,
    Text,
}

/// Appends a line, or a part of one: a whole character of UTF-8 as it is, unless it controls a terminal or turns the direction of a text, and `?` for each
/// other byte.
#[tactic(auto, unfolding(crate::specs::Character::shown))]
pub fn add_shown(text: &mut Vec<u8>, line: &[u8]) -> Result<(), AllocError>
    ensures { OnOk result (text.new.items ≡ text.old.items ++ shown line.now) }
{
    let mut left = 0;
    let mut rest = line;
    while let [byte, after @ ..] = rest {
        let of_character = left_at(Among::Line, left, rest);
        text.push(if of_character > 0 { *byte } else { b'?' })?;
        left = of_character.saturating_sub(1);
        rest = after;
    }
    Ok(())
}

/// How many bytes from the first on belong to one character that is shown, where `left` were left of the one before them.
pub(crate) fn left_at(among: Among, left: usize, bytes: &[u8]) -> usize
    ensures { result ≡ left_at among left bytes.now }
{
    match bytes {
        [first, ..] if left > 0 && goes_on(*first) => left,
        _ => shown_length(among, bytes),
    }
}

// How many bytes the character has with which some bytes begin, if it is whole and shown; otherwise 0.
fn shown_length(among: Among, bytes: &[u8]) -> usize
    ensures { result ≡ shown_length among bytes.now }
{
    match bytes {
        [a, ..] if *a < 128 => usize::from(is_ascii_shown(among, *a)),
        [a, b, ..] if is_two_shown(*a, *b) => 2,
        [a, b, c, ..] if is_three_shown(*a, *b, *c) => 3,
        [a, b, c, d, ..] if is_four_shown(*a, *b, *c, *d) => 4,
        _ => 0,
    }
}

fn is_ascii_shown(among: Among, code: u8) -> bool
    ensures { result ≡ is_ascii_shown among code }
{
    match among {
        _ if 32 <= code => code != 127,
        Among::Line => code == 9,
        Among::Text => code == 9 || code == 10 || code == 12,
    }
}

fn goes_on(byte: u8) -> bool
    ensures { result ≡ goes_on byte }
{
    128 <= byte && byte <= 191
}

// The number that the bytes of a character give, of which these six bits are the next.
fn joined(front: u32, byte: u8) -> u32
    requires front { front < 2 ^ 20 }
    requires goes_on { 128 ≤ byte }
    ensures { result ≡ front * 64 + (byte - 128) }
{
    front * 64 + u32::from(byte - 128)
}

fn is_two_shown(a: u8, b: u8) -> bool
    ensures { result ≡ is_two_shown a b }
{
    192 <= a && a <= 223 && goes_on(b) && 160 <= joined(u32::from(a - 192), b)
}

fn is_three_shown(a: u8, b: u8, c: u8) -> bool
    ensures { result ≡ is_three_shown a b c }
{
    224 <= a
        && a <= 239
        && goes_on(b)
        && goes_on(c)
        && {
            let code = joined(joined(u32::from(a - 224), b), c);
            let is_surrogate = 55_296 <= code && code <= 57_343;
            let turns = 8_234 <= code && code <= 8_238 || 8_294 <= code && code <= 8_297;
            2_048 <= code && !is_surrogate && !turns
        }
}

fn is_four_shown(a: u8, b: u8, c: u8, d: u8) -> bool
    ensures { result ≡ is_four_shown a b c d }
{
    240 <= a
        && a <= 247
        && goes_on(b)
        && goes_on(c)
        && goes_on(d)
        && {
            let code = joined(joined(joined(u32::from(a - 240), b), c), d);
            65_536 <= code && code <= 1_114_111
        }
}
