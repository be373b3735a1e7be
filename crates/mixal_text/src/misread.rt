//! A text that is refused: its fault, and the bytes at fault.
ghost use Rattle.std.specs.Prelude.{◌≡◌};
ghost use Rattle.mixal_text.specs.Misread.{or_at};

use crate::fault::TextFault;

/// Some bytes of a text, from the number of the first to the number after the last, counted from 0.
#[derive(Clone, Copy)]
pub struct Span {
    pub from: usize,
    pub to: usize,
}

/// Why a text is refused (1.3.2), and the bytes at fault; where something is missing, their span is empty.
#[derive(Clone, Copy)]
pub struct Misread {
    pub fault: TextFault,
    pub at: Span,
}

/// An answer, or its fault at these bytes.
pub(crate) fn or_at<T: Drop>(
    got: Result<T, TextFault>,
    from: usize,
    to: usize,
) -> Result<T, Misread>
    ensures { result ≡ or_at got from to }
{
    match got {
        Ok(answer) => Ok(answer),
        Err(fault) => Err(Misread {
            fault,
            at: Span { from, to },
        }),
    }
}
