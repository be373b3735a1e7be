//! What a client of the debug adapter asks for: its requests by kind, with their arguments, the
//! parts of the machine that they name and what these are worth, and why a request is refused.
#![tactic(auto)]

mod arguments;
mod deed;
mod entry;
mod fault;
mod kind;
mod layout;
mod look;
mod memory;
mod scope;
mod value;
mod watch;

pub use deed::{Deed, Worth, deed_of, line_deed, worth_of};
pub use entry::{entries_of, integer_in, number_in, text_in};
pub use fault::{Fault, refuse};
pub use kind::{Act, Given, Kind, Look, Target, kind_asked, kind_before};
pub use layout::{
    CELL_BYTES, MEMORY_BYTES, byte_reference, cell_of_reference, memory_byte, reference_of, word_of,
};
pub use look::{
    Name, THREAD, line_for, line_of, line_of_cell, nothing, put_exception, put_fault, scopes,
    source, source_line, stack_trace, threads,
};
pub use memory::{integer_asked, read_memory, start_of};
pub use scope::{PAGE, PAGES, Scope, UNITS, scope_of};
pub use value::{
    cell_at, cell_name, characters, evaluated, held, number_asked, place_at, register_value,
    value_asked, word_value, worth_asked,
};
pub use watch::{data_breakpoint_info, part_named};
