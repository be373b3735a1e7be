//! What the word `help` says of the commands.

use crate::elsewhere::typed_here;

const ALL: &str = "\
step, run, trace     go on, step by step; run stops at breakpoints, trace shows each step
back, forth, goto    take changes back, do them again, go to a numbered state
set                  changes the machine
break, clear         set a breakpoint, take one away; finish goes on to where a subroutine returns
show                 shows the machine, its code, its past, counts
quit                 ends the session
A command may be shortened: s is step, b break, ba back, u until; n is step too, c is run.
back and forth alone take 1, run alone 1000000. Who wrote cell 100? run, then back until cell 100.
watch COND makes run, back and forth stop there from now on; delete ends that.
print shows a register, cell E or a word W; list shows the source, where what comes next.
display shows what print shows after each stop; undisplay ends that.
save FILE saves what was done, as a bundle: mixrev < FILE does it again.
source FILE does the lines of FILE, as if they were typed.
reload reads the source again, and does there what was done so far.
help COMMAND explains one, as help back. A blank line repeats the last command.
";

const STEP: &str = "\
step             does one step
step N           does N steps, 1 to 1000000, fewer if a halt or a fault comes
After a halt, step and run without a number do nothing. rs takes one step back.
";

const RUN: &str = "\
run N            does N steps, 1 to 1000000, fewer if a halt, a fault or a breakpoint comes
run N until COND also stops when a step reaches COND, and shows that step
advance E is run until loc E; finish is that with the location that rJ has: where the subroutine
returns that was entered last, until another JMP is done.
";

const TRACE: &str = "\
trace            does one step and shows what it altered
trace N          does N steps as step N, and shows each
";

const BACK: &str = "\
back N           takes the last N changes back
back all         takes every change back
back break       takes changes back up to a breakpoint
back until COND  takes changes back until COND is reached, and shows the last: who wrote this?
";

const FORTH: &str = "\
forth N          does the next N changes again that were taken back
forth all        does all of them again
forth until COND does them again until COND is reached, and shows the last
";

const GOTO: &str = "\
goto N           goes to the state after the first N changes, back or forth
";

const SET: &str = "\
set REG W        puts the word W into a register: A, X, I1 to I6, J
set cell E W     puts the word W into cell E
set loc E        sets the location
set over on      sets the overflow toggle; or off
set cmp L        sets the comparison indicator: L, E or G
Each is a change, and can be taken back.
";

const BREAK: &str = "\
break E          gives cell E a breakpoint, where run stops; clear E takes it away
break line N     the same for the first line of the source, from line N on, that gives a word
clear all takes all away. What you type here is no change, and back takes none of it back: each run
waits for it, as until loc E. In a script, as of mixrev debug SOURCE SCRIPT, it is a change.
";

const SHOW: &str = "\
show regs        the registers, toggle, indicator, location and clock
show all         everything in use: registers, cells, breakpoints, units
show cells E E   the cells from the first to the second
show unit N      a unit, 0 to 20, and what it holds
show code [E E]  the cell at the location, or cells: word, instruction, line of the source
show value W     a word as bytes, as a number and in characters
show values [E E]  the registers, or cells, in the same way
show last N      what the last N changes altered
show writes COND  each change done that reaches COND, and what it altered, the first one first
show diff N      what differs between the state after N changes and now
show counts      how often each instruction was executed, and the time that it took
show conflicts   each change done that conflicts with a transfer under way, and with which
show clock, show breaks, show changes, show symbols
show nodes from E to E, N words each, label F, links F, heads H  lists and trees in cells
show passages E of ITEM  the parts ITEM each time that E was reached; assert A > 0 tests them
show analysis [N=10]  the counts in brackets in the source, as [N-1], beside the measured ones
show map         which instructions were executed when
";

pub(crate) const SHOW_TAKES: &str = "\
show takes regs, all, cells E E, unit N, code, value W, values, last N, writes COND, diff N,
counts, conflicts, clock, breaks, changes, symbols, nodes, passages, analysis or map
";

const WATCH_TAKES: &str =
    "watch takes COND: a register, over, cmp, cell E, unit N, loc E or conflict\n";

const QUIT: &str = "\
quit             ends the session, as the end of the input does
";

const PRINT: &str = "\
print A          shows rA; print over, cmp, loc, clock that; print alone the registers
print cell E     shows cell E as bytes, as a number and in characters; x E does too
print W          shows the word W in the same way; a symbol is its location
If a symbol has a register's name, print X and watch X mean the symbol, and rX the register.
where            shows what comes next, as show code
list             shows the lines of the source around what comes next; again those after them
list LINE        shows those around a line, or around the line of a symbol
";

const WATCH: &str = "\
watch COND       run stops there too from now on, back and forth alone go up to it: until COND
delete           nothing is watched any more
Each watch adds to what is watched, up to eight conditions. COND is as after until; help until
says more. A symbol alone is its cell.
";

const DISPLAY: &str = "\
display A        shows rA now, and after each stop from now on
display cell E   shows cell E, and display W a word, in the same way: as print does
undisplay        nothing is displayed any more
";

const SAVE: &str = "\
save FILE        saves the source, the deck and what was done in FILE, as a bundle
mixrev < FILE does the same again. A file that holds something else is not replaced.
save! FILE       replaces it, whatever it holds
";

const SOURCE: &str = "\
source FILE      does the lines of FILE, one after the other, as if each were typed here
If FILE can't be read, nothing is done. FILE can't use source, save or reload itself.
";

const RELOAD: &str = "\
reload           assembles the source again, as it is now, and does there what was done so far
Breakpoints stay, and what is watched or displayed: break LOOP is at LOOP again, if that has moved.
If the source is refused, the session goes on as it was.
";

const LIST: &str = "list takes the number of a line, a symbol, or nothing\n";

const UNTIL: &str = "\
COND is a register, over, cmp, cell E, unit N, loc E or conflict: a change reaches it by altering
what it names, by leading to location E, or by a conflict with a transfer under way. As:
run 1000 until A, back until cell 100, run 1000 until conflict. Up to eight may be joined
by or: run 1000 until A or loc LOOP ends with the first step that reaches one of them.
";

const NONE: &str = "There is no help on that; help alone names the commands.\n";

const NO_COMMAND: &str = "help lists the commands\n";

/// The help on a word, or on all where there is none.
pub fn help_on(word: Option<&[u8]>) -> &'static str {
    match word {
        None => ALL,
        Some(word) => {
            for (name, _, text) in &TOPICS {
                if word.eq_ignore_ascii_case(name.as_bytes()) {
                    return text;
                }
            }
            NONE
        }
    }
}

/// What the command of this name takes; of no command, where to look for one.
pub fn form_of(word: Option<&[u8]>) -> &'static str {
    if let Some(word) = word {
        for (name, form, _) in &TOPICS {
            if word.eq_ignore_ascii_case(name.as_bytes()) {
                return form;
            }
        }
    }
    match word.and_then(typed_here) {
        Some(form) => form,
        None => NO_COMMAND,
    }
}

// Each word that there is help on: what it takes, as a refusal says it, and the help.
#[rattlefmt::skip]
static TOPICS: [(&str, &str, &str); 26] = [
    ("step", "step takes a number, 1 to 1000000, or nothing\n", STEP),
    ("run", "run takes a number, 1 to 1000000, until COND, both or nothing\n", RUN),
    ("trace", "trace takes a number, 1 to 1000000, or nothing\n", TRACE),
    ("back", "back takes a number, all, break or until COND\n", BACK),
    ("forth", "forth takes a number, all or until COND\n", FORTH),
    ("goto", "goto takes a number\n", GOTO),
    ("set", "set takes REG W, cell E W, loc E, over on, over off or cmp L, E, G\n", SET),
    ("break", "break takes E, a cell, or line N\n", BREAK),
    ("clear", "clear takes E, a cell, line N or all; show breaks lists them\n", BREAK),
    ("show", SHOW_TAKES, SHOW),
    ("quit", NO_COMMAND, QUIT),
    ("finish", "finish takes nothing; run until loc E stops at E\n", RUN),
    ("until", NO_COMMAND, UNTIL),
    ("cond", NO_COMMAND, UNTIL),
    ("print", NO_COMMAND, PRINT),
    ("x", NO_COMMAND, PRINT),
    ("where", NO_COMMAND, PRINT),
    ("list", LIST, PRINT),
    ("watch", WATCH_TAKES, WATCH),
    ("delete", "delete takes nothing: it forgets what is watched; clear E takes a breakpoint away\n", WATCH),
    ("display", "display takes a register, cell E or a word W, as print does\n", DISPLAY),
    ("undisplay", "undisplay takes nothing: nothing is displayed any more\n", DISPLAY),
    ("save", "save takes the name of a file\n", SAVE),
    ("source", "source takes the name of a file\n", SOURCE),
    ("reload", "reload takes nothing\n", RELOAD),
    ("help", NO_COMMAND, ALL),
];
