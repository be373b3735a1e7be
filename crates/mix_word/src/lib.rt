//! The words of MIX, and the table of its operations (The Art of Computer Programming, 1.3.1).
#![tactic(auto)]

mod arithmetic;
mod bytes;
mod characters;
mod comparison;
mod conversion;
mod decoding;
mod display;
mod field;
mod instruction;
mod laws;
mod naming;
mod operation;
mod pairs;
mod place;
mod register;
mod rows;
mod shifting;
mod uses;
mod word;

pub use arithmetic::{add, div, mul, sub};
pub use characters::{char_of, code_of};
pub use comparison::compare;
pub use conversion::{num, to_char};
pub use decoding::{Decoded, decode};
pub use display::{Location, Short};
pub use field::Field;
pub use instruction::{Instruction, Number};
pub use laws::{decode_law, long_name_law, number_law};
pub use naming::{MAX_LETTERS, named};
pub use operation::{Condition, JumpKind, Operation, ShiftKind};
pub use place::{CELLS, Place};
pub use register::{DataReg, Reg};
pub use shifting::shift;
pub use uses::{UNITS, UnitUse, Uses};
pub use word::{Cmp, Parts, Sign, Word};
