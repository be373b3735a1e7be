//! The characters of MIX (1.3.1): a code for each, and a printed byte.
ghost use Rattle.std.specs.Prelude.{◌≡◌, ◌==◌, ◌<◌, ◌≤◌, IfSome};
ghost use Rattle.mix_word.specs.Characters.{characters, character_of, character_code};
ghost use Rattle.std.specs.Char.{to_ascii_uppercase};
ghost use Rattle.std.specs.List.{position};

// The printed byte of each code from 0 on. The Greek letters delta, sigma and pi are `~`, `[` and `#`.
const CHARACTERS: [u8; 56] = *b" ABCDEFGHI~JKLMNOPQR[#STUVWXYZ0123456789.,()+-*/=$<>@;:'";

/// The printed byte of a character code (1.3.1), or `?` where the code has none, as all from 56 on.
#[tactic(auto, using(crate::proofs::CharacterLemmas::characters_read_back))]
pub fn char_of(code: u8) -> u8
    ensures is { result ≡ character_of code }
    ensures read_back { code < 56 → character_code result ≡ Some code }
    ensures unread { 56 ≤ code → character_code result ≡ None }
{
    printed_byte(code)
}

#[tactic(auto, using(crate::proofs::CharacterLemmas::characters_by_code))]
fn printed_byte(code: u8) -> u8
    ensures { result ≡ character_of code }
{
    if code < 56 {
        CHARACTERS[usize::from(code)]
    } else {
        b'?'
    }
}

/// The character code of a printed byte, 0 to 55 (1.3.1), a small letter read as its capital, or none.
pub fn code_of(byte: u8) -> Option<u8>
    ensures is { result ≡ character_code byte }
    ensures printed { IfSome result (λ c. (c < 56) × (character_of c ≡ to_ascii_uppercase byte)) }
{
    match place_of(byte.to_ascii_uppercase()) {
        Some(code) => Some(code as u8),
        None => None,
    }
}

fn place_of(character: u8) -> Option<usize>
    ensures is { result ≡ position (λ c. c == character) characters }
    ensures bound { IfSome result (λ i. i < 56) }
{
    CHARACTERS.iter().position(|c| *c == character)
}
