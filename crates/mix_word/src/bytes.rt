//! A word as its sign and its five bytes (1.3.1), from the most significant byte on.
ghost use Rattle.std.specs.Prelude.{◌≡◌, ◌<◌, ◌^◌, [], ◌∷◌, All};
ghost use Rattle.mix_word.specs.Word.{plus, bytes_of, magnitude_of_bytes, word_of_bytes};

use crate::word::{Sign, Word};

impl Word {
    /// The word of a sign and five bytes (1.3.1), each below 64, from the most significant one on.
    pub fn from_bytes(sign: Sign, bytes: [u8; 5]) -> Word
        requires { All (λ b. b < 64) bytes }
        ensures is { result ≡ word_of_bytes sign bytes }
        ensures bytes { bytes_of result ≡ bytes }
    {
        let [a, b, c, d, e] = bytes;
        Word::of(sign, magnitude(a, b, c, d, e))
    }

    /// The five bytes (1.3.1), each below 64, from the most significant one on; the sign is beside them.
    pub fn bytes(self) -> [u8; 5]
        ensures is { result ≡ bytes_of self }
        ensures bound { All (λ b. b < 64) result }
        ensures word { word_of_bytes self.sign result ≡ self }
    {
        [
            self.byte(1),
            self.byte(2),
            self.byte(3),
            self.byte(4),
            self.byte(5),
        ]
    }
}

// The number whose digits to the base 64 are these.
fn magnitude(a: u8, b: u8, c: u8, d: u8, e: u8) -> u32
    requires a { a < 64 }
    requires b { b < 64 }
    requires c { c < 64 }
    requires d { d < 64 }
    requires e { e < 64 }
    ensures is { result ≡ magnitude_of_bytes 0 (a ∷ b ∷ c ∷ d ∷ e ∷ []) }
    ensures digits { bytes_of (plus result) ≡ a ∷ b ∷ c ∷ d ∷ e ∷ [] }
    ensures bound { result < 64 ^ 5 }
{
    let upper = (u32::from(a) << 6 | u32::from(b)) << 6 | u32::from(c);
    (upper << 6 | u32::from(d)) << 6 | u32::from(e)
}
