//! What a command line asks for.

ghost use Rattle.std.specs.Prelude.{◌≡◌, IfOk, true};
ghost use Rattle.mix_cli.specs.Files.{is_apart};

use crate::fault::LineFault;
use crate::found::{number, optional, owned, required, subject, table, units};
use crate::program::program;
use crate::vain::{replaced, vain_in};
use clap::ArgMatches;
use mix_plan::{DebugPlan, Plan, RunPlan};
use std::alloc::{AllocError, Global};

/// How many steps a run does at most where no number is given.
const STEPS: u64 = 1_000_000_000;

fn debug_plan(alloc: Global, words: &ArgMatches<'_>) -> Result<DebugPlan, AllocError> {
    Ok(DebugPlan {
        source: required(alloc, words, "SOURCE")?,
        script: optional(alloc, words, "SCRIPT")?,
        devices: optional(alloc, words, "devices")?,
        echo: words.get_flag("echo"),
    })
}

fn run_plan(alloc: Global, words: &ArgMatches<'_>) -> Result<RunPlan, AllocError> {
    Ok(RunPlan {
        source: required(alloc, words, "SOURCE")?,
        devices: optional(alloc, words, "devices")?,
        cards: optional(alloc, words, "cards")?,
        typewriter: optional(alloc, words, "typewriter")?,
        steps: words.get_str("steps").and_then(number).unwrap_or(STEPS),
        units: units(words),
        trace: words.get_flag("trace"),
        registers: words.get_flag("registers"),
        strict: words.get_flag("strict"),
        tells_halt: false,
        keep: optional(alloc, words, "keep")?,
        svg: optional(alloc, words, "svg")?,
        table: table(words),
        subject: subject(alloc, words)?,
    })
}

/// The plan of a command line. The words are as `env::args` gives them, the first the program's
/// name: none after it is a bundle, `list SOURCE` a listing, with `--latex` in LaTeX, `check SOURCE..` a check, with `--json`
/// in JSON, `debug SOURCE SCRIPT` a session, with a deck by `--devices FILE`, `debug SOURCE` a talk,
/// `run SOURCE` a run, `dap` the debug adapter, and `lsp` the language server. Where standard input is a terminal no bundle is
/// meant, and help is shown.
///
/// It fails with `Line` where the words are none of these or ask for help or the version, with
/// `Vain` where two arguments can't stand together, and with `Memory` where memory is refused.
pub fn read_words<'a>(
    alloc: Global,
    words: &'a [&'a str],
    terminal: bool,
) -> Result<Plan, LineFault>
    ensures apart { IfOk result (λ plan. is_apart plan ≡ true) }
{
    if !terminal && words.len() <= 1 {
        return Ok(Plan::Bundle);
    }
    let found = program(alloc)?.try_get_matches_from(words)?;
    match found.subcommand() {
        Some(("run", words)) => {
            if let Some(vain) = vain_in(words) {
                return Err(LineFault::Vain(vain));
            }
            let run = run_plan(alloc, words)?;
            match replaced(alloc, &run)? {
                Some(vain) => Err(LineFault::Vain(vain)),
                None => Ok(Plan::Run(run)),
            }
        }
        Some(("debug", words)) => Ok(Plan::Debug(debug_plan(alloc, words)?)),
        Some(("list", words)) => {
            let source = required(alloc, words, "SOURCE")?;
            if words.get_flag("latex") {
                Ok(Plan::Typeset(source))
            } else {
                Ok(Plan::List(source))
            }
        }
        Some(("check", words)) => Ok(Plan::Check {
            sources: owned(alloc, words.get_strs("SOURCE").unwrap_or(&[]))?,
            json: words.get_flag("json"),
        }),
        Some(("dap", _)) => Ok(Plan::Dap),
        Some(_) => Ok(Plan::Lsp),
        // clap refuses words without a command
        None => Ok(Plan::Bundle),
    }
}
