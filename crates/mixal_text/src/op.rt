//! What stands in the place of OP (1.3.2).
ghost use Rattle.std.specs.Prelude.{◌≡◌};
ghost use Rattle.std.specs.Str.{str_to_ascii_uppercase};
ghost use Rattle.mixal_text.specs.Op.{mnemonic_of, is_without_operand};

use mix_word::{MAX_LETTERS, Operation, Uses, Word, long_name_law, named};

/// What a line does (1.3.2): a symbolic operation of MIX, by its code C and the F that it has where none is written, both
/// 0 to 63; or a pseudo-operation, ALF with the word of its five characters.
#[derive(Clone, Copy)]
pub enum Op {
    Machine { code: u8, f: u8 },
    Equ,
    Orig,
    Con,
    Alf(Word),
    End,
}

/// The name that stands in the place of OP (1.3.2): that of an operation of MIX, or of a pseudo-operation.
#[derive(Clone, Copy)]
pub enum Mnemonic {
    Machine(Operation),
    Equ,
    Orig,
    Con,
    Alf,
    End,
}

impl Mnemonic {
    /// What a name means in the place of OP, in either case of letters, or none where it names no operation.
    pub(crate) fn of(name: &[u8]) -> Option<Mnemonic>
        ensures { result ≡ mnemonic_of (str_to_ascii_uppercase name.now) }
    {
        if name.len() > MAX_LETTERS {
            long_name_law();
            return None;
        }
        let mut letters = [0; MAX_LETTERS];
        let capitals = &mut letters[..name.len()];
        capitals.copy_from_slice(name);
        capitals.make_ascii_uppercase();
        Mnemonic::in_capitals(capitals)
    }

    #[tactic(auto, unfolding(crate::specs::Op::mnemonic_of))]
    fn in_capitals(name: &[u8]) -> Option<Mnemonic>
        ensures { result ≡ mnemonic_of name.now }
    {
        match name {
            b"EQU" => Some(Mnemonic::Equ),
            b"ORIG" => Some(Mnemonic::Orig),
            b"CON" => Some(Mnemonic::Con),
            b"ALF" => Some(Mnemonic::Alf),
            b"END" => Some(Mnemonic::End),
            _ => named(name).map(Mnemonic::Machine),
        }
    }
}

/// Whether what follows an operation is a remark if it begins with a letter (1.3.2): that of NUM, CHAR and HLT.
pub fn is_without_operand(operation: Operation) -> bool
    ensures { result ≡ is_without_operand operation }
{
    matches!(operation.uses(), Uses::FAlone)
}
