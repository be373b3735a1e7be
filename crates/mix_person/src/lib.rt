//! What a person types: the line of a script that it stands for, what is only said of it, and the help on it.
#![tactic(auto)]

mod aside;
mod conditions;
mod elsewhere;
mod follows;
mod help;
mod names;
mod person;
mod shown;
mod word;

pub use aside::{only_said, shown_part, shows_part};
pub use help::{form_of, help_on};
pub use person::{Line, kind_of, name_in, person_line};
