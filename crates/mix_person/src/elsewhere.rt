//! The commands of other debuggers, and what to type here.

use crate::help::SHOW_TAKES;

const FROM_A_SHELL: &str = "mixrev debug SOURCE opens a source; quit ends this session\n";

const SHOWS_REGISTERS: &str =
    "print shows the registers, print A rA alone; show regs has the toggle and the indicator\n";

const GOES_BACK: &str = "back takes a number, all, break or until COND\n";

const GOES_ON: &str = "run takes a number, 1 to 1000000, until COND, both or nothing\n";

const SHOWS_CELLS: &str = "print cell E shows a cell, x E E cells\n";

const SETS: &str =
    "set REG W sets a register, set cell E W a cell, set over on the toggle, set cmp L\n";

const BREAKS: &str = "break takes E, a cell, or line N; watch takes COND\n";

const CLEARS: &str = "clear takes E, a cell, line N or all; show breaks lists them\n";

const STOPS_ONCE: &str = "advance E stops at E once; break E each time\n";

const ENDS_SUBROUTINE: &str =
    "finish goes on to where the subroutine returns: print J shows where that is\n";

const WAITS: &str =
    "a breakpoint has no condition: run until COND stops once, watch COND each time\n";

const SHOWS_PAST: &str =
    "show last N shows what the last N changes altered; trace N shows each step\n";

const SHOWS_TIME: &str = "show clock shows the time\n";

const LISTS: &str = "list takes the number of a line, a symbol, or nothing\n";

const SHOWS_CODE: &str =
    "where shows what comes next, where E E cells as instructions; list shows the source\n";

const PRINTS: &str = "print takes a register, over, cmp, loc, clock, cell E or a word W\n";

const ENDS: &str = "quit ends this session\n";

const IN_A_SHELL: &str = "a shell has that: quit ends this session\n";

const IN_EDITOR: &str = "edit the source elsewhere: reload reads it again\n";

const KEPT: &str = "all is recorded: back takes changes back, goto N goes to one\n";

#[rattlefmt::skip]
static ELSEWHERE: [(&str, &str); 98] = [
    ("load", FROM_A_SHELL), ("file", FROM_A_SHELL), ("start", GOES_ON), ("info", SHOW_TAKES), ("i", SHOW_TAKES),
    ("preg", SHOWS_REGISTERS), ("pflags", SHOWS_REGISTERS), ("pc", SHOWS_REGISTERS), ("pstat", SHOWS_REGISTERS), ("pall", "show all shows everything in use\n"),
    ("pmem", SHOWS_CELLS), ("psym", "show symbols shows them all, print SYMBOL one\n"), ("weval", "print takes W, a word\n"), ("w2d", "print takes W, a word: 5 or LOOP+1\n"),
    ("sreg", SETS), ("smem", SETS), ("scmp", SETS), ("sover", SETS), ("ssym", "a symbol keeps its value; set cell E W sets the cell\n"),
    ("jump", "set loc E sets the location; goto takes a number of changes\n"),
    ("sbp", BREAKS), ("sbpa", BREAKS), ("sbpr", BREAKS), ("sbpm", BREAKS), ("sbpc", BREAKS), ("sbpo", BREAKS), ("rwatch", BREAKS), ("enable", BREAKS),
    ("tbreak", STOPS_ONCE), ("condition", WAITS), ("ignore", WAITS), ("commands", WAITS),
    ("cbp", CLEARS), ("cbpa", CLEARS), ("cabp", CLEARS), ("disable", CLEARS),
    ("cbpr", "delete forgets what is watched\n"), ("cbpm", "delete forgets what is watched\n"), ("cbpc", "delete forgets what is watched\n"), ("cbpo", "delete forgets what is watched\n"),
    ("strace", SHOWS_PAST), ("pbt", SHOWS_PAST), ("sbt", SHOWS_PAST), ("bt", SHOWS_PAST), ("backtrace", SHOWS_PAST), ("history", SHOWS_PAST), ("when", SHOWS_PAST),
    ("stime", SHOWS_TIME), ("ptime", SHOWS_TIME), ("up", ENDS_SUBROUTINE), ("down", ENDS_SUBROUTINE),
    ("reverse-finish", "back until loc E goes back to E: the JMP that called\n"), ("reverse-continue", GOES_BACK), ("rc", GOES_BACK), ("undo", GOES_BACK),
    ("seek", KEPT), ("record", KEPT), ("restart", "back all begins anew\n"), ("pline", LISTS), ("psrc", LISTS), ("pprog", LISTS), ("layout", LISTS),
    ("edit", IN_EDITOR), ("compile", IN_EDITOR), ("sedit", IN_EDITOR), ("pedit", IN_EDITOR), ("sasm", IN_EDITOR), ("pasm", IN_EDITOR),
    ("shell", IN_A_SHELL), ("!", IN_A_SHELL), ("sddir", IN_A_SHELL), ("pddir", IN_A_SHELL), ("scm", IN_A_SHELL), ("scmf", IN_A_SHELL), ("slog", IN_A_SHELL), ("prompt", IN_A_SHELL),
    ("x/", "x E shows a cell, x E E those from the first to the second\n"), ("p/", "print shows bytes, number and characters at once\n"), ("print/", "print shows bytes, number and characters at once\n"), ("!ls", IN_A_SHELL),
    ("&", "a symbol is its location: x X shows the cell\n"), ("disassemble", SHOWS_CODE), ("disas", SHOWS_CODE),
    ("frame", SHOWS_CODE), ("ptype", PRINTS), ("whatis", PRINTS), ("inspect", PRINTS), ("output", PRINTS),
    ("printf", PRINTS), ("call", PRINTS), ("awatch", BREAKS), ("hbreak", BREAKS), ("catch", BREAKS),
    ("thbreak", STOPS_ONCE), ("kill", ENDS), ("k", ENDS), ("pwd", IN_A_SHELL), ("cd", IN_A_SHELL),
];

// Whether a word is this one, or begins with it, if that ends with a slash.
fn is_this(word: &[u8], name: &str) -> bool {
    let name = name.as_bytes();
    if name.ends_with(b"/") {
        word.len() >= name.len() && word[..name.len()].eq_ignore_ascii_case(name)
    } else {
        word.eq_ignore_ascii_case(name)
    }
}

/// What to type here for a command of another debugger, if the word is one.
pub(crate) fn typed_here(word: &[u8]) -> Option<&'static str> {
    for (name, form) in &ELSEWHERE {
        if is_this(word, name) {
            return Some(form);
        }
    }
    None
}
