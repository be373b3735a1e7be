//! Options of `run` that say nothing together: none is dropped without a word. And files that a run needs: none is replaced.

ghost use Rattle.std.specs.Prelude.{◌≡◌, IfOk, is_none, option_map, string_bytes};
ghost use Rattle.std.specs.Path.{path_buf_bytes};
ghost use Rattle.mix_cli.specs.Files.{is_one_file, path_of, run_is_apart};

use clap::ArgMatches;
use mix_plan::RunPlan;
use std::alloc::{AllocError, Global};
use std::fmt;
use std::path::{Path, PathBuf};

/// Two options that say nothing together, the form of a table where there is none, or two arguments that name one file, which the first would replace.
#[derive(Clone, Copy)]
pub enum Vain {
    Together(&'static str, &'static str),
    Alone(&'static str),
    Replaced(&'static str, &'static str),
}

impl fmt::Display for Vain {
    fn fmt<W: fmt::Write>(&self, f: &mut fmt::Formatter<W>) -> fmt::Result {
        match self {
            Vain::Together(a, b) => write!(f, "the argument '{a}' cannot be used with '{b}'"),
            Vain::Alone(form) => write!(
                f,
                "the argument '{form}' cannot be used without '--counts', '--formulas <NAMES>', '--writes <PART>' or '--trace'"
            ),
            Vain::Replaced(over, file) => write!(
                f,
                "the argument '{over}' cannot replace the file of '{file}'"
            ),
        }
    }
}

// An option: its name for clap, and as help writes it.
type Choice = (&'static str, &'static str);

const SOURCE: &str = "<SOURCE>";

const CARDS: &str = "--cards <FILE>";

const TYPEWRITER: &str = "--typewriter <FILE>";

const KEEP: &str = "--keep <FILE>";

const SVG: &str = "--svg <FILE>";

const COUNTS: Choice = ("counts", "--counts");

const FORMULAS: Choice = ("formulas", "--formulas <NAMES>");

const WRITES: Choice = ("writes", "--writes <PART>");

const TRACE: Choice = ("trace", "--trace");

const CSV: Choice = ("csv", "--csv");

const JSON: Choice = ("json", "--json");

const LATEX: Choice = ("latex", "--latex");

const STRICT: Choice = ("strict", "--strict");

const REGISTERS: Choice = ("registers", "--registers");

const UNIT: Choice = ("unit", "--unit <N>");

// Whether an option is chosen: one with a value by its value.
fn is_chosen(words: &ArgMatches<'_>, choice: Choice) -> bool {
    let (id, shown) = choice;
    match shown.as_bytes() {
        [.., b'>'] => words.contains_id(id),
        _ => words.get_flag(id),
    }
}

// The first of some options that is chosen.
fn chosen_of(words: &ArgMatches<'_>, options: &[Choice]) -> Option<Choice> {
    options
        .iter()
        .copied()
        .find(|option| is_chosen(words, *option))
}

// The first two of some options that are both chosen.
fn two_of(words: &ArgMatches<'_>, options: &[Choice]) -> Option<Vain> {
    let mut first = None;
    for option in options {
        if is_chosen(words, *option) {
            match first {
                Some(name) => return Some(Vain::Together(name, option.1)),
                None => first = Some(option.1),
            }
        }
    }
    None
}

/// Options of `run` that can't stand together, if there are any: a run writes one table, in one form; beside a table it prints no rows and no registers,
/// and looks for no conflict.
pub(crate) fn vain_in(words: &ArgMatches<'_>) -> Option<Vain> {
    let tables = [COUNTS, FORMULAS, WRITES, TRACE];
    let forms = [CSV, JSON, LATEX];
    if let Some(vain) = two_of(words, &tables).or(two_of(words, &forms)) {
        return Some(vain);
    }
    for option in [STRICT, REGISTERS, UNIT] {
        if is_chosen(words, option) {
            let beside = [COUNTS, FORMULAS, WRITES, CSV, JSON, LATEX];
            if let Some(other) = chosen_of(words, &beside) {
                return Some(Vain::Together(option.1, other.1));
            }
        }
    }
    match chosen_of(words, &tables) {
        Some(_) => None,
        None => chosen_of(words, &forms).map(|form| Vain::Alone(form.1)),
    }
}

fn name_of(file: &Option<String>) -> Option<&str>
    ensures { option_map (λ s. s.now) result ≡ option_map string_bytes file.now }
{
    match file {
        Some(name) => Some(name.as_str()),
        None => None,
    }
}

// The path of a file from the current folder, so that `./a` is `a`. `-` has none: it is standard input for one, and standard output for the other.
#[tactic(auto, unfolding(crate::specs::Files::path_of))]
fn path_of(alloc: Global, name: Option<&str>) -> Result<Option<PathBuf>, AllocError>
    ensures { IfOk result (λ path. option_map path_buf_bytes path ≡ path_of (option_map (λ s. s.now) name.entry)) }
{
    match name {
        Some(name) if name != "-" => Ok(Some(Path::new(".").join(alloc, name)?)),
        _ => Ok(None),
    }
}

// Whether two paths are of one file, as they are written: no link is followed.
#[tactic(auto, unfolding(crate::specs::Files::is_one_file))]
fn is_one_file(path: &Option<PathBuf>, other: &Option<PathBuf>) -> bool
    ensures { result ≡ is_one_file (option_map path_buf_bytes path.now) (option_map path_buf_bytes other.now) }
{
    match (path, other) {
        (Some(path), Some(other)) => path == other,
        _ => false,
    }
}

/// A file that a run would replace and reads too, but for the deck with which its units begin, or would write twice. Memory may be refused.
pub(crate) fn replaced(alloc: Global, run: &RunPlan) -> Result<Option<Vain>, AllocError>
    ensures { IfOk result (λ vain. is_none vain ≡ run_is_apart run.now) }
{
    let keep = path_of(alloc, name_of(&run.keep))?;
    let svg = path_of(alloc, name_of(&run.svg))?;
    let source = path_of(alloc, Some(run.source.as_str()))?;
    let cards = path_of(alloc, name_of(&run.cards))?;
    let typewriter = path_of(alloc, name_of(&run.typewriter))?;
    let devices = path_of(alloc, name_of(&run.devices))?;
    if is_one_file(&keep, &source) {
        Ok(Some(Vain::Replaced(KEEP, SOURCE)))
    } else if is_one_file(&keep, &cards) {
        Ok(Some(Vain::Replaced(KEEP, CARDS)))
    } else if is_one_file(&keep, &typewriter) {
        Ok(Some(Vain::Replaced(KEEP, TYPEWRITER)))
    } else if is_one_file(&svg, &source) {
        Ok(Some(Vain::Replaced(SVG, SOURCE)))
    } else if is_one_file(&svg, &devices) {
        Ok(Some(Vain::Replaced(SVG, "--devices <FILE>")))
    } else if is_one_file(&svg, &cards) {
        Ok(Some(Vain::Replaced(SVG, CARDS)))
    } else if is_one_file(&svg, &typewriter) {
        Ok(Some(Vain::Replaced(SVG, TYPEWRITER)))
    } else if is_one_file(&svg, &keep) {
        Ok(Some(Vain::Replaced(SVG, KEEP)))
    } else {
        Ok(None)
    }
}
