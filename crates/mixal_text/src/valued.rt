//! What of an ADDRESS needs the values of its symbols at its own line (1.3.2).
ghost use Rattle.std.specs.Prelude.{◌≡◌};
ghost use Rattle.mixal_text.specs.Valued.{valued_part};

use crate::cut::split_at_delimiter;
use crate::line::{Line, read_line};
use crate::local::{Direction, Local};
use crate::op::Op;
use crate::symbol::Symbol;
use crate::written_f::after_a_part;

/// The part of a line's ADDRESS in which each symbol needs a value at this very line (1.3.2): all of it, but for an A-part of an
/// instruction that is a literal or a symbol alone. Empty where a line cannot be read.
#[tactic(auto, unfolding(crate::specs::Valued::valued_part))]
pub fn valued_part(line: &[u8]) -> &[u8]
    ensures part { result.now ≡ valued_part line.now }
{
    match read_line(line) {
        Ok(
            Line::Code {
                op: Op::Machine { .. },
                address,
                ..
            },
        ) => match address {
            [] => &[],
            [b'=', ..] => after_a_part(address),
            _ => {
                let a_part = split_at_delimiter(address).0;
                let is_ahead = match Local::of(a_part) {
                    Some(local) => matches!(local.direction, Direction::Forward),
                    None => false,
                };
                if is_ahead || Symbol::of(a_part).is_some() {
                    after_a_part(address)
                } else {
                    address
                }
            }
        },
        Ok(Line::Code { address, .. }) => address,
        Ok(Line::Remark) | Err(_) => &[],
    }
}
