//! What a plan asks for: the names of its files, and what is asked of its run.

ghost use Rattle.std.specs.Prelude.{◌≡◌, option_map, string_bytes};
ghost use Rattle.mix_tool.specs.Plan.{names_in, names_of};
ghost use Rattle.mix_tool.specs.Run.{format_of, options_of, subject_of, rows_of};

use crate::texts::Names;
use mix_plan::{Plan, RunPlan};
use mix_run::{AskedTable, PrintOptions, TableFormat, TableOf, UnitSet};

/// The names of the files of a plan.
pub(crate) fn names_in(plan: &Plan) -> Names<'_>
    ensures { names_in result ≡ names_of plan.now }
{
    match plan {
        Plan::Bundle | Plan::Check { .. } | Plan::Dap | Plan::Lsp => Names {
            source: None,
            deck: None,
            cards: None,
            typewriter: None,
            script: None,
        },
        Plan::List(source) => Names {
            source: Some(source),
            deck: None,
            cards: None,
            typewriter: None,
            script: None,
        },
        Plan::Typeset(source) => Names {
            source: Some(source),
            deck: None,
            cards: None,
            typewriter: None,
            script: None,
        },
        Plan::Debug(session) => Names {
            source: Some(session.source.as_str()),
            deck: session.devices.as_deref(),
            cards: None,
            typewriter: None,
            script: session.script.as_deref(),
        },
        Plan::Run(run) => Names {
            source: Some(run.source.as_str()),
            deck: run.devices.as_deref(),
            cards: run.cards.as_deref(),
            typewriter: run.typewriter.as_deref(),
            script: None,
        },
    }
}

// The form of a table.
fn format_of(format: mix_plan::TableFormat) -> TableFormat
    ensures { result ≡ format_of format }
{
    match format {
        mix_plan::TableFormat::Csv => TableFormat::Csv,
        mix_plan::TableFormat::Json => TableFormat::Json,
        mix_plan::TableFormat::Latex => TableFormat::Latex,
    }
}

// What a table is of.
fn rows_of(rows: mix_plan::TableOf) -> TableOf
    ensures { result ≡ rows_of rows }
{
    match rows {
        mix_plan::TableOf::Counts => TableOf::Counts,
        mix_plan::TableOf::Formulas => TableOf::Formulas,
        mix_plan::TableOf::Trace => TableOf::Trace,
        mix_plan::TableOf::Writes => TableOf::Writes,
    }
}

/// What a table is about: the part whose changes it has, or the values of names.
pub(crate) fn subject_of(subject: &Option<String>) -> &str
    ensures { result.now ≡ subject_of (option_map string_bytes subject.now) }
{
    match subject {
        Some(subject) => subject.as_str(),
        None => "",
    }
}

/// What is asked of a run.
pub(crate) fn options_of(plan: &RunPlan) -> PrintOptions
    ensures { result ≡ options_of plan.now }
{
    PrintOptions {
        steps: plan.steps,
        units: UnitSet {
            card_punch: plan.units.card_punch,
            printer: plan.units.printer,
            typewriter: plan.units.typewriter,
            paper_tape: plan.units.paper_tape,
        },
        trace: plan.trace,
        registers: plan.registers,
        strict: plan.strict,
        keep: plan.keep.is_some(),
        table: match plan.table {
            Some(asked) => Some(AskedTable {
                of: rows_of(asked.of),
                format: format_of(asked.format),
            }),
            None => None,
        },
        map: plan.svg.is_some(),
    }
}
