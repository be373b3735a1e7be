//! The text of MIXAL (The Art of Computer Programming, 1.3.2): lines, symbols, expressions, W-values and addresses.
//! Each is read from borrowed bytes, and no call takes memory.
#![tactic(auto)]

mod addresses;
mod alf;
mod alf_slips;
mod atom;
mod bad;
mod cut;
mod expressions;
mod fault;
mod label;
mod line;
mod local;
mod misread;
mod names;
mod op;
mod operator;
mod part;
mod parts;
mod reads_on;
mod references;
mod refused;
mod slips;
mod symbol;
mod valued;
mod w_values;
mod words;
mod written_f;

pub use addresses::{APart, Operand, address};
pub use atom::split_run;
pub use expressions::{expression, whole_expression};
pub use fault::TextFault;
pub use label::Label;
pub use line::{Line, line_is_end, line_loc, line_op, read_line};
pub use local::{Direction, Local};
pub use misread::{Misread, Span};
pub use names::Names;
pub use op::{Mnemonic, Op, is_without_operand};
pub use parts::{Part, part_span};
pub use slips::{Slip, Survey, symbol_used};
pub use symbol::Symbol;
pub use valued::valued_part;
pub use w_values::w_value;
