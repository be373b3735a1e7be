//! What handing in a line gives.

use crate::assembler::Assembler;
use crate::program::Program;

/// What a line gives that is accepted (1.3.2): the assembler, which waits for the next line, or at END the program.
#[derive(Drop)]
pub enum Fed<'s> {
    More(Assembler<'s>),
    Done(Program),
}
