//! What is asked of a run.

/// A run that is asked for: its files, how far it goes, and what it writes.
#[derive(Drop)]
pub struct RunPlan {
    /// The file with the source, or with a bundle.
    pub source: String,
    /// The file with the deck, instead of that of the bundle.
    pub devices: Option<String>,
    /// The file with the cards of unit 16, instead of those of the deck.
    pub cards: Option<String>,
    /// The file with the lines that unit 19 reads, instead of those of the deck.
    pub typewriter: Option<String>,
    /// The most steps that are done, 1 to 10^18.
    pub steps: u64,
    /// The units whose rows are written.
    pub units: UnitSet,
    /// Whether each step is written too, or is a row of the table.
    pub trace: bool,
    /// Whether the registers are written at the end too.
    pub registers: bool,
    /// Whether the run ends before the first step that conflicts with a transfer under way.
    pub strict: bool,
    /// Whether standard error says where the program halted, and why nothing of it is to be seen.
    pub tells_halt: bool,
    /// The file in which the deck of what the units hold at the end is saved.
    pub keep: Option<String>,
    /// The file in which the map of the steps is saved, an SVG picture.
    pub svg: Option<String>,
    /// The table that is written instead of the rows.
    pub table: Option<AskedTable>,
    /// What the table is about: the part whose changes it has, or the values of names in its formulas, as `N=10,A=1`.
    pub subject: Option<String>,
}

/// The units whose rows are written (1.3.1): of the card punch, unit 17, the printer, 18, the typewriter, 19, and the paper tape, 20,
/// those that are true.
#[derive(Clone, Copy)]
pub struct UnitSet {
    pub card_punch: bool,
    pub printer: bool,
    pub typewriter: bool,
    pub paper_tape: bool,
}

/// What a table has a row for, and its form.
#[derive(Clone, Copy)]
pub struct AskedTable {
    pub of: TableOf,
    pub format: TableFormat,
}

/// What a table has a row for: each instruction that was executed, each line that has a formula in brackets, each step, or each step that altered a
/// part of the machine.
#[derive(Clone, Copy)]
pub enum TableOf {
    Counts,
    Formulas,
    Trace,
    Writes,
}

/// The form of a table: comma-separated values, JSON, or a table of LaTeX.
#[derive(Clone, Copy)]
pub enum TableFormat {
    Csv,
    Json,
    Latex,
}
