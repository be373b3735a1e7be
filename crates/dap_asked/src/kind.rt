//! What a request is about, by its name.

ghost use Rattle.std.specs.Prelude.{◌≡◌, map};
ghost use Rattle.dap_asked.specs.Kind.{IsAsked, kind_among, kind_named};

mod given;

use crate::arguments::flaw_of;
use crate::fault::Fault;
pub use given::Given;
use rpc_message::Request;

/// What a request is about.
#[derive(Clone, Copy)]
pub enum Kind {
    /// What the adapter can do.
    Initialize,
    /// It only looks.
    Look(Look),
    /// A text that the request gives, whether a program is launched or not.
    Given(Given),
    /// Breakpoints, in place of those that stand.
    Points(Target),
    /// A run, which pauses.
    Pause,
    /// The end of the program.
    Terminate,
    /// The beginning of the program, after a change back of all.
    Restart,
    /// A request that is answered already.
    Cancel,
    /// A program, though one is launched already.
    Launch,
    /// The end of the talk.
    Disconnect,
    /// Cells, which get bytes; the machine has to be at rest.
    Write,
    /// A step, or the run over the subroutine that it calls.
    StepOver,
    /// The machine, which has to be at rest.
    Act(Act),
}

/// What is looked at.
#[derive(Clone, Copy)]
pub enum Look {
    /// The threads.
    Threads,
    /// The frames.
    Frames,
    /// The scopes of the variables.
    Scopes,
    /// The variables of a scope.
    Variables,
    /// The fault at which the program stopped.
    Fault,
    /// Bytes of the memory.
    Memory,
    /// Cells as instructions.
    Instructions,
    /// Where a `goto` may lead.
    Targets,
    /// What a data breakpoint would watch.
    Watch,
    /// The lines on which breakpoints stay.
    Locations,
    /// How a line of the console may go on.
    Completions,
    /// The program as it was assembled.
    Program,
    /// How often each instruction was executed.
    Counts,
    /// Where the instructions were executed in the course of the changes.
    Path,
    /// The machine as it is.
    State,
    /// The units.
    Units,
    /// A change by its number.
    Change,
    /// The change that a step would be.
    Next,
    /// The changes that altered a part.
    Writes,
    /// Linked nodes.
    Nodes,
    /// The states in which the machine is at a line.
    Passages,
    /// The counts of the book beside those that are measured.
    Analysis,
}

/// What breakpoints are set on.
#[derive(Clone, Copy)]
pub enum Target {
    /// Lines of the source.
    Lines,
    /// Instructions, by their cells.
    Instructions,
    /// What is written, by the parts of the machine.
    Data,
    /// Kinds of exceptions, by the names of their filters.
    Exceptions,
    /// What the machine does not have: functions.
    Nothing,
}

/// What is done with the machine.
#[derive(Clone, Copy)]
pub enum Act {
    /// A step.
    Step,
    /// A change taken back.
    StepBack,
    /// A run forwards.
    Continue,
    /// A run until the location is the one that rJ has.
    StepOut,
    /// A run backwards.
    ReverseContinue,
    /// The first stop or the first run, as the launch asked.
    Begin,
    /// The location is set.
    Goto,
    /// A register, a flag or a cell is set.
    SetVariable,
    /// What an expression names is set.
    SetExpression,
    /// An expression is looked at, or a line of the script is executed.
    Evaluate,
}

/// The requests that there are, by their names in the protocol, and views of a machine of MIX beside it.
#[rattlefmt::skip]
pub const REQUESTS: [(&str, Kind); 48] = [
    ("initialize", Kind::Initialize),
    ("launch", Kind::Launch),
    ("configurationDone", Kind::Act(Act::Begin)),
    ("setBreakpoints", Kind::Points(Target::Lines)),
    ("setFunctionBreakpoints", Kind::Points(Target::Nothing)),
    ("setInstructionBreakpoints", Kind::Points(Target::Instructions)),
    ("setDataBreakpoints", Kind::Points(Target::Data)),
    ("setExceptionBreakpoints", Kind::Points(Target::Exceptions)),
    ("dataBreakpointInfo", Kind::Look(Look::Watch)),
    ("breakpointLocations", Kind::Look(Look::Locations)),
    ("threads", Kind::Look(Look::Threads)),
    ("stackTrace", Kind::Look(Look::Frames)),
    ("scopes", Kind::Look(Look::Scopes)),
    ("variables", Kind::Look(Look::Variables)),
    ("setVariable", Kind::Act(Act::SetVariable)),
    ("setExpression", Kind::Act(Act::SetExpression)),
    ("evaluate", Kind::Act(Act::Evaluate)),
    ("completions", Kind::Look(Look::Completions)),
    ("exceptionInfo", Kind::Look(Look::Fault)),
    ("continue", Kind::Act(Act::Continue)),
    ("next", Kind::StepOver),
    ("stepIn", Kind::Act(Act::Step)),
    ("stepOut", Kind::Act(Act::StepOut)),
    ("stepBack", Kind::Act(Act::StepBack)),
    ("reverseContinue", Kind::Act(Act::ReverseContinue)),
    ("pause", Kind::Pause),
    ("goto", Kind::Act(Act::Goto)),
    ("gotoTargets", Kind::Look(Look::Targets)),
    ("readMemory", Kind::Look(Look::Memory)),
    ("writeMemory", Kind::Write),
    ("disassemble", Kind::Look(Look::Instructions)),
    ("restart", Kind::Restart),
    ("disconnect", Kind::Disconnect),
    ("terminate", Kind::Terminate),
    ("cancel", Kind::Cancel),
    ("mix/program", Kind::Look(Look::Program)),
    ("mix/counts", Kind::Look(Look::Counts)),
    ("mix/path", Kind::Look(Look::Path)),
    ("mix/state", Kind::Look(Look::State)),
    ("mix/units", Kind::Look(Look::Units)),
    ("mix/change", Kind::Look(Look::Change)),
    ("mix/next", Kind::Look(Look::Next)),
    ("mix/writes", Kind::Look(Look::Writes)),
    ("mix/nodes", Kind::Look(Look::Nodes)),
    ("mix/passages", Kind::Look(Look::Passages)),
    ("mix/analysis", Kind::Look(Look::Analysis)),
    ("mix/check", Kind::Given(Given::Check)),
    ("mix/bundle", Kind::Given(Given::Bundle)),
];

// What a request of this name is about, if there is one: letter for letter.
#[tactic(auto, unfolding(crate::specs::Kind::kind_named))]
pub(crate) fn kind_named(name: &str) -> Option<Kind>
    ensures { result ≡ kind_named name.now }
{
    kind_among(&REQUESTS, name)
}

fn kind_among(rows: &[(&str, Kind)], name: &str) -> Option<Kind>
    ensures { result ≡ kind_among name.now (map (λ row. (row.0.now, row.1)) rows.now) }
{
    for row in rows {
        if row.0 == name {
            return Some(row.1);
        }
    }
    None
}

/// What a request is about; it is refused whatever the machine is like, if there is none of its name, or an argument is not what it has to be.
pub fn kind_asked(request: &Request) -> Result<Kind, Fault>
    ensures { IsAsked result request.now }
{
    match kind_named(request.name()) {
        None => Err(Fault::NoSuchRequest),
        Some(kind) => match flaw_of(kind, request) {
            None => Ok(kind),
            Some(_) => Err(Fault::BadArgument),
        },
    }
}

/// The same before a program is launched, of which a request that needs one has its arguments not looked at.
pub fn kind_before(request: &Request) -> Result<Kind, Fault>
    ensures { IsAsked result request.now }
{
    match kind_named(request.name()) {
        None
        | Some(Kind::Initialize | Kind::Given(_) | Kind::Launch)
        | Some(Kind::Terminate | Kind::Disconnect) => kind_asked(request),
        Some(kind) => Ok(kind),
    }
}
