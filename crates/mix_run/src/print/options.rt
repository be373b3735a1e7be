//! What is asked of a run: how many steps, the rows of which units, whether its steps are traced, whether the registers at its end are written, whether
//! it ends before a conflict, whether what the units hold at the end is kept, whether a table is written, and whether its map is drawn.
ghost use Rattle.std.specs.Prelude.{◌≡◌, true, false};

use crate::table::TableFormat;

/// The units whose rows are printed (1.3.1): of the card punch, unit 17, the printer, 18, the typewriter, 19, and the paper tape, 20, those that
/// are true.
#[derive(Clone, Copy)]
pub struct UnitSet {
    pub card_punch: bool,
    pub printer: bool,
    pub typewriter: bool,
    pub paper_tape: bool,
}

impl UnitSet {
    /// All four.
    pub const ALL: UnitSet = UnitSet {
        card_punch: true,
        printer: true,
        typewriter: true,
        paper_tape: true,
    };

    /// None.
    pub const NONE: UnitSet = UnitSet {
        card_punch: false,
        printer: false,
        typewriter: false,
        paper_tape: false,
    };
}

/// What a table is of: how often each instruction was executed, or that of each line with a formula beside the formula's value, or each step, or each step
/// that altered a part of the machine.
#[derive(Clone, Copy)]
pub enum TableOf {
    Counts,
    Formulas,
    Trace,
    Writes,
}

/// What a table is of, and its form.
#[derive(Clone, Copy)]
pub struct AskedTable {
    pub of: TableOf,
    pub format: TableFormat,
}

/// What is asked of a run.
#[derive(Clone, Copy)]
pub struct PrintOptions {
    /// The most steps that are done.
    pub steps: u64,
    /// The units whose rows are printed.
    pub units: UnitSet,
    /// Whether the line of each step is written too.
    pub trace: bool,
    /// Whether the registers, the toggle, the indicator, the location and the clock at the end are written too, where no table is.
    pub registers: bool,
    /// Whether the run ends before the first step that conflicts with a transfer under way.
    pub strict: bool,
    /// Whether the deck of what the units hold at the end is given.
    pub keep: bool,
    /// The table that is written instead of the rows and the lines of the steps. Such a run is never strict. For that of the counts or the
    /// formulas it keeps its history, so many steps take much memory, and does at most 4,294,967,295 steps.
    pub table: Option<AskedTable>,
    /// Whether the map of its steps is given. For that the program is run in a session too, which keeps its history, does at most 4,294,967,295
    /// steps, and is never strict.
    pub map: bool,
}
