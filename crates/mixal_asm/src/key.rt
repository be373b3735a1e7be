//! What a word may wait for (1.3.2).
ghost use Rattle.std.specs.Prelude.{◌≡◌};
ghost use Rattle.std.specs.Cmp.{on_equiv, partial_equiv_from_equiv};
ghost use Rattle.std.specs.Cmp.Lexicographic.{nat_list_eq_equiv};
ghost use Rattle.std.specs.Hash.{same_Alike};
ghost use Rattle.mixal_asm.specs.Key.{key_numbers, same_key, same_key_decides, key_writes};

use mixal_text::Symbol;
use std::hash::{Hash, Hasher};

/// What gets a value once (1.3.2): an ordinary symbol; the local symbol dH by its digit d and by how many dH stand before
/// it; or a literal, whose value is its place, by how many literals stand before it.
#[derive(Drop)]
pub(crate) enum Key {
    Name(Symbol),
    Local(u8, usize),
    Literal(usize),
}

impl Key {
    /// The same key once more. It takes no memory.
    pub(crate) fn copied(&self) -> Key
        ensures { result ≡ self.now }
    {
        match self {
            Key::Name(symbol) => Key::Name(symbol.copied()),
            Key::Local(d, n) => Key::Local(*d, *n),
            Key::Literal(j) => Key::Literal(*j),
        }
    }
}

impl PartialEq for Key {
    ghost eq = { same_key };

    ghost laws = { partial_equiv_from_equiv (on_equiv key_numbers nat_list_eq_equiv) };

    fn eq(&self, other: &Self) -> bool {
        match (self, other) {
            (Key::Name(name), Key::Name(other)) => name == other,
            (Key::Local(d, n), Key::Local(e, m)) => *d == *e && *n == *m,
            (Key::Literal(i), Key::Literal(j)) => *i == *j,
            (Key::Name(_), Key::Local(..) | Key::Literal(_)) => false,
            (Key::Local(..), Key::Name(_) | Key::Literal(_)) => false,
            (Key::Literal(_), Key::Name(_) | Key::Local(..)) => false,
        }
    }
}

impl Eq for Key {
    ghost laws = { on_equiv key_numbers nat_list_eq_equiv };
}

impl Hash for Key {
    ghost hash_input = { key_writes };

    ghost respects_eq = { (same_Alike key_writes same_key_decides).fed };

    fn hash<H: Hasher>(&self, state: &mut H) {
        match self {
            Key::Name(symbol) => {
                state.write_u8(0);
                symbol.hash(state);
            }
            Key::Local(d, n) => {
                state.write_u8(1);
                d.hash(state);
                n.hash(state);
            }
            Key::Literal(j) => {
                state.write_u8(2);
                j.hash(state);
            }
        }
    }
}
