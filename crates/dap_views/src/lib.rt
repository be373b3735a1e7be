//! What a client of the debug adapter is shown: the variables of the machine, and the views of
//! program, machine, changes and units. They only look.
#![tactic(auto)]

mod variables;
mod view;

pub use variables::{row_text, unit_at, variables_view};
pub use view::{
    analysis_view, change_view, counts_view, given_view, next_view, nodes_view, passages_view,
    path_view, program_view, state_view, units_view, writes_view,
};
