//! What the program is, and what all its commands have in common, as help has it.

pub(crate) const ABOUT: &str =
    "Knuth's MIX computer, its assembler MIXAL, and a debugger that runs backwards";

pub(crate) const MORE: &str = "\
A source is a program in the language MIXAL. A deck says what tapes, disks and
cards hold before the program runs. A script is a text file of commands, one a
line, such as: step 4, back 2, forth 1, set A 7, break LOOP, run 1000, show
regs.

Without any words, mixrev reads a bundle from standard input, if that is no
terminal: the source; after a line %DEVICES a deck; after a line %SCRIPT a
script. The deck and the script may be left out. As the name of a file, - is
standard input.

Examples:
  mixrev run primes.mixal
  mixrev debug primes.mixal
  mixrev debug primes.mixal session.txt --devices tapes.deck
  mixrev list primes.mixal
  mixrev check primes.mixal sieve.mixal

The status is 0 if all is accepted, 1 if a source is refused, and 3 if a command
is refused, a step meets a fault, the steps of a run are used up or a strict run
ends before a conflict. It is 2 if nothing could be run to its end: a mistake in
the words, a file that cannot be opened, read or replaced, a deck that is
refused, a text that is too long, an output that takes no more, or no memory.";
