//! W-values (1.3.2): expressions, each put into its field of one word.
ghost use Rattle.std.specs.Prelude.{◌≡◌, ◌∷◌, ◌<◌, ◌+◌, ◌^◌, IfErr, length, option_copied, position};
ghost use Rattle.std.specs.List.{slice_split};
ghost use Rattle.mix_word.specs.Field.{field_of};
ghost use Rattle.mixal_text.specs.Prelude.{IsWithin, pieces_of, length_with_one};
ghost use Rattle.mixal_text.specs.Part.{brackets_at, is_comma};
ghost use Rattle.mixal_text.specs.WValue.{put_piece, w_value_of};

use crate::cut::{after_close, split_at_bracket, split_at_close};
use crate::expressions::whole_at;
use crate::misread::{Misread, or_at};
use crate::names::Names;
use crate::part::{closed_at, field_of_value, left_at};
use mix_word::{Field, Word};

/// The word of a W-value (1.3.2), `E1(F1),E2(F2),..`: each expression is put into its field of a word that is +0 at
/// first, in turn, and into the whole word where no field is given. The asterisk stands for `here`. The first fault from
/// the left is the answer: those of an expression, A10 where a value in brackets is the code of no field, and A5 where
/// something is missing or left over. The fault is at an atom, at all of an expression up to the operation that cannot be
/// done, at the field, or at what is left over; where something is missing, its bytes are none.
#[tactic(auto, unfolding(crate::specs::WValue::w_value_of))]
pub fn w_value<N: Names>(text: &[u8], names: &N, here: Word) -> Result<Word, Misread>
    ensures value { result ≡ w_value_of (N.names names.now) here text.now }
    ensures within { IfErr result (λ misread. IsWithin 0 (length text.now) misread.at) }
{
    let mut word = Word::ZERO;
    let mut rest = Some(text);
    while let Some(pieces) = rest {
        let (piece, more) = split_piece(pieces);
        word = put_piece(text.len() - pieces.len(), word, piece, names, here)?;
        rest = more;
    }
    Ok(word)
}

// The first piece of a text that commas cut, and what follows its comma, if there is one.
#[tactic(auto, using(crate::proofs::PartLemmas::pieces))]
fn split_piece(text: &[u8]) -> (&[u8], Option<&[u8]>)
    ensures is { slice_split is_comma text.now ≡ result.0.now ∷ pieces_of is_comma (option_copied result.1) }
    ensures whole { length result.0.now + length_with_one (option_copied result.1) ≡ length text.now }
{
    match comma_in(text) {
        Some(end) => (&text[..end], Some(&text[end + 1..])),
        None => (text, None),
    }
}

fn comma_in(text: &[u8]) -> Option<usize>
    ensures { result ≡ position is_comma text.now }
{
    text.iter().position(|byte| *byte == b',')
}

#[tactic(auto, unfolding(crate::specs::WValue::put_piece))]
fn put_piece<N: Names>(
    place: usize,
    word: Word,
    piece: &[u8],
    names: &N,
    here: Word,
) -> Result<Word, Misread>
    requires { place + length piece.now < 2 ^ 64 }
    ensures value { result ≡ put_piece (N.names names.now) here place word piece.now }
    ensures within { IfErr result (λ misread. IsWithin place (place + length piece.now) misread.at) }
{
    let (text, brackets) = split_at_bracket(piece);
    let value = whole_at(place, text, names, here)?;
    let field = field_in_brackets(place + text.len(), brackets, names, here)?;
    Ok(word.put_field(field.unwrap_or(Field::whole()), value))
}

#[tactic(auto, unfolding(crate::specs::Part::brackets_at))]
fn field_in_brackets<N: Names>(
    place: usize,
    text: &[u8],
    names: &N,
    here: Word,
) -> Result<Option<Field>, Misread>
    requires { place + length text.now < 2 ^ 64 }
    ensures value { result ≡ brackets_at field_of (N.names names.now) here place text.now }
    ensures within { IfErr result (λ misread. IsWithin place (place + length text.now) misread.at) }
{
    match text {
        [] => Ok(None),
        [_, text @ ..] => {
            let from = place + 1;
            let value = closed_at(from, text, names, here)?;
            let to = from + split_at_close(text).0.len();
            let field = or_at(field_of_value(value), from, to)?;
            left_at(to + 1, after_close(text))?;
            Ok(Some(field))
        }
    }
}
