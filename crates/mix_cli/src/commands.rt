//! The commands as one table, of which parser and help are made, and of help the completions.

use crate::program::{Argument, Kind, Subcommand};

pub(crate) const COMMANDS: [Subcommand<'static>; 6] = [RUN, DEBUG, LIST, CHECK, DAP, LSP];

const RUN: Subcommand<'static> = Subcommand {
    name: "run",
    about: "Runs a program to its halt and writes what it prints",
    more: "\
The program runs to its halt, and what it prints is written at once: the rows of
the card punch, the printer, the typewriter and the paper tape in the order in
which they are printed, without the blanks at their ends, and a page mark as a
form feed. If a step meets a fault, or the steps are used up, one line on
standard error says where. It cannot go back.
A step that uses cells of a transfer that is not over is a mistake, such as a
store into a line that is still printed. The first of them is printed there, and
how many there are; with --strict the run ends before it.
With --trace the line of each step, with what it altered, comes before what it
prints. With --registers the lines of `show regs` are written at the end. With
--keep the tapes and disks are there for the next program: it reads that file
with --devices. With --svg the picture has the lines of the source against the
steps of the run: darker where a line was executed more often.
With --counts a table has a row for each instruction that was executed: the line
of the source, the location, how often, and the time in u. With --formulas it
has one for each line with a formula in brackets, such as [N-1]: how often it
was executed, the value of the formula, and whether they agree. With --writes it
has a row for each change of a part, with its values before and after. With
--trace and one of --csv, --json and --latex it has a row for each step. A run
with --svg, --counts or --formulas keeps its history, so a program without an
end needs --steps.
A bundle may take the place of a source: its deck is taken, unless --devices
names another, and its script is left out.

Example:
  mixrev run primes.mixal --unit 18",
    arguments: &RUN_ARGUMENTS,
};

const DEBUG: Subcommand<'static> = Subcommand {
    name: "debug",
    about: "Executes commands on the program of a source, forwards and backwards",
    more: "\
Without a script it is interactive: it reads a command from standard input,
executes it and prints its reply before it reads the next. At a terminal, help
lists the commands, and quit ends the session, as the end of the input does.

A script is a text file of commands, one a line: step N and run N go on, trace N
shows each step, back N takes changes back, forth N does them again, goto N goes
to the state after the first N, set, break and clear change the machine, and
show shows its state, the last changes, what differs and how often each
instruction was executed. With until A, until cell 100 and the like, run N, back
and forth stop when that is altered. A deck is a text file that says what tapes,
disks and cards hold before the program runs: a line such as %UNIT 0, and its
blocks after it.
A bundle may take the place of a source: its deck is taken, unless --devices
names another, and its script is left out.

Example: with the two lines `run 1000` and `show regs` in the file session.txt,
  mixrev debug primes.mixal session.txt
runs the program up to its halt and shows the registers.",
    arguments: &DEBUG_ARGUMENTS,
};

const LIST: Subcommand<'static> = Subcommand {
    name: "list",
    about: "Writes the listing of a source",
    more: "\
A source is a text file with a program in the language MIXAL, which ends with a
line END. The listing has each line with its location and its word, and then the
program's symbols. If the source is refused, it has only the first fault.
With --latex a table has each line in the columns of the book: its number, LOC,
OP, ADDRESS, the formula in brackets and the remark.

Example:
  mixrev list primes.mixal",
    arguments: &[
        SOURCE,
        Argument {
            name: "latex",
            kind: Kind::Flag,
            help: "Writes the lines as a table of LaTeX",
        },
    ],
};

const CHECK: Subcommand<'static> = Subcommand {
    name: "check",
    about: "Reports all faults of sources",
    more: "\
Nothing is run. Each fault is reported as compilers do, with its file, line and
column, the line and a mark; the sources one after the other. A source without
faults gives nothing. The status is 1 if a source has a fault.

Example:
  mixrev check primes.mixal sieve.mixal",
    arguments: &CHECK_ARGUMENTS,
};

const DAP: Subcommand<'static> = Subcommand {
    name: "dap",
    about: "Is the debug adapter of an editor",
    more: "\
It speaks the Debug Adapter Protocol on standard input and output, for the
editor that starts it: breakpoints in the source, steps forth and back,
registers, cells and units.",
    arguments: &[],
};

const LSP: Subcommand<'static> = Subcommand {
    name: "lsp",
    about: "Is the language server of an editor",
    more: "\
It speaks the Language Server Protocol on standard input and output, for the
editor that starts it: faults and warnings as one writes, where a name is
defined and used, and a new name for it.",
    arguments: &[],
};

const SOURCE: Argument<'static> = Argument {
    name: "SOURCE",
    kind: Kind::Needed,
    help: "The file with the program, in the language MIXAL",
};

const DEVICES: Argument<'static> = Argument {
    name: "devices",
    kind: Kind::File,
    help: "The deck: what tapes, disks and cards hold at first",
};

const RUN_ARGUMENTS: [Argument<'static>; 17] = [
    SOURCE,
    Argument {
        name: "cards",
        kind: Kind::File,
        help: "The cards of the reader, one a line, not the deck's",
    },
    Argument {
        name: "typewriter",
        kind: Kind::File,
        help: "The lines that the typewriter gives, not the deck's",
    },
    DEVICES,
    Argument {
        name: "steps",
        kind: Kind::Number(1, 1_000_000_000_000_000_000),
        help: "The most steps that are done, 1000000000 if left out",
    },
    Argument {
        name: "unit",
        kind: Kind::Numbers(17, 20),
        help: "Only the rows of this unit, 17 to 20; may be repeated",
    },
    Argument {
        name: "trace",
        kind: Kind::Flag,
        help: "Writes each step too, before what it prints",
    },
    Argument {
        name: "registers",
        kind: Kind::Flag,
        help: "Writes the registers and the clock at the end too",
    },
    Argument {
        name: "strict",
        kind: Kind::Flag,
        help: "Ends before a step that conflicts with a transfer",
    },
    Argument {
        name: "keep",
        kind: Kind::File,
        help: "Writes what the units hold at the end, as a deck",
    },
    Argument {
        name: "svg",
        kind: Kind::File,
        help: "Writes a picture of which lines were executed when",
    },
    Argument {
        name: "counts",
        kind: Kind::Flag,
        help: "Writes no rows, but how often each line was executed",
    },
    Argument {
        name: "formulas",
        kind: Kind::Names,
        help: "Writes no rows, but formulas beside counts: N=10,A=1",
    },
    Argument {
        name: "writes",
        kind: Kind::Part,
        help: "Writes no rows, but changes of this part: A, 100, X+1",
    },
    Argument {
        name: "csv",
        kind: Kind::Flag,
        help: "Writes the table, or the trace, as CSV",
    },
    Argument {
        name: "json",
        kind: Kind::Flag,
        help: "Writes the table, or the trace, as JSON",
    },
    Argument {
        name: "latex",
        kind: Kind::Flag,
        help: "Writes the table, or the trace, as LaTeX",
    },
];

const DEBUG_ARGUMENTS: [Argument<'static>; 4] = [
    SOURCE,
    Argument {
        name: "SCRIPT",
        kind: Kind::Free,
        help: "The file with the commands, one a line; without it standard input",
    },
    DEVICES,
    Argument {
        name: "echo",
        kind: Kind::Flag,
        help: "Writes each command of SCRIPT before its reply",
    },
];

const CHECK_ARGUMENTS: [Argument<'static>; 2] = [
    Argument {
        name: "SOURCE",
        kind: Kind::Several,
        help: "The files with the programs, in the language MIXAL",
    },
    Argument {
        name: "json",
        kind: Kind::Flag,
        help: "Writes each fault as one JSON object a line",
    },
];
