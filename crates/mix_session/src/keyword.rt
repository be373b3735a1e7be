//! Keywords: those that may stand at one place of a command, each with its name.

ghost use Rattle.std.specs.Prelude.{◌≡◌, ℕ, List, Some};
ghost use Rattle.mix_session.specs.Keyword.{keyword_named, is_name};

mod command;
mod target;

pub(crate) use command::{BackWord, CommandWord, ForthWord};
pub(crate) use target::{SetWord, UntilWord};

/// The keywords that may stand at one place of a command.
pub(crate) trait Keyword: Copy + 'static {
    ghost name_of: { Self → List ℕ };

    ghost all_of: { List Self };

    /// The name.
    fn name(self) -> &'static str
        ensures { result.now ≡ name_of self };

    /// All keywords of the place.
    fn all() -> &'static [Self]
        ensures { result.now ≡ all_of };

    ghost named: { (k : Self) → keyword_named name_of all_of (name_of k) ≡ Some k };
}

/// The keyword of this name, in capitals or small letters, or `None` where the place has none.
pub(crate) fn named<K: Keyword>(word: &[u8]) -> Option<K>
    ensures { result ≡ keyword_named K.name_of K.all_of word.now }
{
    K::all()
        .iter()
        .copied()
        .find(|keyword| has_name(*keyword, word))
}

fn has_name<K: Keyword>(keyword: K, word: &[u8]) -> bool
    ensures { result ≡ is_name word.now (K.name_of keyword) }
{
    word.eq_ignore_ascii_case(keyword.name().as_bytes())
}
