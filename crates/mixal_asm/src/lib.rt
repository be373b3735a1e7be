//! The assembler of MIXAL (The Art of Computer Programming, 1.3.2): a source, line by line, into words, a start and a listing.
#![tactic(auto)]

mod assembler;
mod behind;
mod code;
mod diagnosis;
mod diagnostic;
mod draft;
mod end;
mod fault;
mod faults;
mod fed;
mod index;
mod inserted;
mod key;
mod lines;
mod listing;
mod mended;
mod mentioned;
mod mentions;
mod names;
mod program;
mod read;
mod row;
mod scope;
mod source;
mod symbols;
mod user;
mod words;

pub use assembler::Assembler;
pub use diagnosis::diagnose;
pub use diagnostic::{Diagnostic, Finding, Warning};
pub use fault::{AsmFault, AsmKind};
pub use faults::{MAX_FAULTS, faults_of};
pub use fed::Fed;
pub use mentioned::{Mention, Name, mentions_of};
pub use mentions::{Role, first_mentions};
pub use mix_stream::{Counted, Failed, In, Out};
pub use program::Program;
pub use row::Source;
pub use source::{MAX_SOURCE_BYTES, assemble};
pub use symbols::Symbols;
