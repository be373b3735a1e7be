//! Local symbols (1.3.2): a digit and H, B or F.
ghost use Rattle.std.specs.Prelude.{◌≡◌};
ghost use Rattle.mixal_text.specs.Local.{local_of};

/// Where a local symbol points: to its own line, or to the closest one before or after it.
#[derive(Clone, Copy)]
pub enum Direction {
    Here,
    Backward,
    Forward,
}

/// A local symbol: `2H`, `2B` or `2F`, of which the digit is 2.
#[derive(Clone, Copy)]
pub struct Local {
    pub digit: u8,
    pub direction: Direction,
}

impl Local {
    /// The local symbol that a text is, in either case of letters, or none where it is no such symbol.
    #[tactic(auto, unfolding(crate::specs::Local::local_of))]
    pub fn of(text: &[u8]) -> Option<Local>
        ensures { result ≡ local_of text.now }
    {
        match text {
            [digit, letter] if digit.is_ascii_digit() => {
                let direction = match letter.to_ascii_uppercase() {
                    b'H' => Direction::Here,
                    b'B' => Direction::Backward,
                    b'F' => Direction::Forward,
                    _ => return None,
                };
                Some(Local {
                    digit: *digit - b'0',
                    direction,
                })
            }
            _ => None,
        }
    }
}
