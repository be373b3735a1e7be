//! What the program is to do.

use crate::run::RunPlan;

/// What the program is to do: a bundle from standard input; the listing of a source; its lines in LaTeX; a check of sources, in JSON or not; a
/// session of a source, with a deck if one is named, by a script, or, if none is named, a talk; a run; or to be a debug adapter,
/// or a language server.
/// The texts are names of files.
#[derive(Drop)]
pub enum Plan {
    Bundle,
    List(String),
    Typeset(String),
    Check { sources: Vec<String>, json: bool },
    Debug(DebugPlan),
    Run(RunPlan),
    Dap,
    Lsp,
}

/// A session that is asked for: its files, and whether each command of the script is written before its reply.
#[derive(Drop)]
pub struct DebugPlan {
    pub source: String,
    pub script: Option<String>,
    pub devices: Option<String>,
    pub echo: bool,
}
