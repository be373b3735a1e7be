//! Why a request is refused: a number and a text each.

ghost use Rattle.std.specs.Prelude.{◌≡◌, None, OnOk};
ghost use Rattle.dap_asked.specs.Fault.{Refuses, fault_number};

use crate::arguments::flaw_of;
use crate::kind::kind_named;
use mix_machine::DeckFault;
use mix_refused::Memory;
use mix_session::{AsmFault, Refusal};
use rpc_message::{Outbox, Request};
use serde_json::{Value, json};
use std::alloc::Global;
use std::fmt;

/// Why a request is refused: a refusal of the session, a fault of the source or the deck, a file that can't be read, or Q1 to Q4 or
/// Q6 of the adapter.
#[derive(Clone, Copy)]
pub enum Fault {
    /// C1 to C6.
    Session(Refusal),
    /// A1 to A16, at a line of the source.
    Source(AsmFault),
    /// K1 to K9, at a line of the deck.
    Deck(DeckFault),
    /// K3, K4, K8 or K9, at a line of the cards.
    Cards(DeckFault),
    /// K3, K4, K8 or K9, at a line of what is typed.
    Typed(DeckFault),
    /// T2: a file could not be read.
    Unread,
    /// T4: a file could not be opened.
    NotOpened,
    /// T6: a text is longer than it may be.
    TooLong,
    /// Q1: the adapter has no such request.
    NoSuchRequest,
    /// Q2: an argument is missing, is not what it has to be, or says nothing that can be done.
    BadArgument,
    /// Q3: no program is launched yet.
    NotLaunched,
    /// Q4: a program is launched already.
    Launched,
    /// Q6: there is nothing of this reference, or at this line.
    NoSuchThing,
}

impl Fault {
    /// The number of an error in the protocol: 100 and the number of A, 200 of C, 300 of Q, 400 of
    /// K, 500 of T.
    pub fn number(self) -> u64
        ensures { result ≡ fault_number self }
    {
        match self {
            Fault::Source(fault) => 100 + u64::from(fault.kind.number()),
            Fault::Session(refusal) => 200 + u64::from(refusal.number()),
            Fault::NoSuchRequest => 301,
            Fault::BadArgument => 302,
            Fault::NotLaunched => 303,
            Fault::Launched => 304,
            Fault::NoSuchThing => 306,
            Fault::Deck(fault) | Fault::Cards(fault) | Fault::Typed(fault) => {
                400 + u64::from(fault.kind.number())
            }
            Fault::Unread => 502,
            Fault::NotOpened => 504,
            Fault::TooLong => 506,
        }
    }
}

impl fmt::Display for Fault {
    ghost output = { λ _. None };

    fn fmt<W: fmt::Write>(&self, f: &mut fmt::Formatter<W>) -> fmt::Result {
        match self {
            Fault::Source(fault) => write!(f, "{fault}"),
            Fault::Session(refusal) => write!(f, "{refusal}"),
            Fault::Deck(fault) | Fault::Cards(fault) | Fault::Typed(fault) => {
                write!(f, "T5 deck refused at {fault}")
            }
            Fault::Unread => write!(f, "T2 read failed"),
            Fault::NotOpened => write!(f, "T4 not opened"),
            Fault::TooLong => write!(f, "T6 input too long"),
            Fault::NoSuchRequest => write!(f, "Q1 no such request"),
            Fault::BadArgument => write!(f, "Q2 bad argument"),
            Fault::NotLaunched => write!(f, "Q3 not launched"),
            Fault::Launched => write!(f, "Q4 launched already"),
            Fault::NoSuchThing => write!(f, "Q6 no such thing"),
        }
    }
}

/// Answers a request with the number and the text of a fault, and with the line of the text that has it.
#[tactic(auto, using(crate::proofs::FaultLemmas::refusing))]
pub fn refuse(
    alloc: Global,
    request: &Request,
    fault: Fault,
    out: &mut Outbox,
) -> Result<(), Memory>
    ensures { OnOk result (Refuses request.now fault out.old out.new) }
{
    let text = format!(in alloc; "{fault}")?;
    let variables = fault_place(alloc, request, fault)?;
    out.refuse(request, fault.number(), text.as_str(), variables)?;
    Ok(())
}

// Where a fault stands: in a line of a text, or in an argument; nothing for another one.
fn fault_place(alloc: Global, request: &Request, fault: Fault) -> Result<Value, Memory> {
    match fault {
        Fault::Source(AsmFault { line, kind, .. }) => {
            let reason = format!(in alloc; "{kind}")?;
            place_of(alloc, "source", line, reason.as_str())
        }
        Fault::Deck(at) => deck_place(alloc, "devices", at),
        Fault::Cards(at) => deck_place(alloc, "cards", at),
        Fault::Typed(at) => deck_place(alloc, "typewriter", at),
        Fault::BadArgument => match kind_named(request.name()).and_then(|kind| flaw_of(
            kind, request,
        )) {
            Some(name) => Ok(json!(in alloc; {"argument": name})?),
            None => Ok(Value::Null),
        },
        Fault::Session(_)
        | Fault::NoSuchRequest
        | Fault::NotLaunched
        | Fault::Launched
        | Fault::NoSuchThing
        | Fault::Unread
        | Fault::NotOpened
        | Fault::TooLong => Ok(Value::Null),
    }
}

fn deck_place(alloc: Global, name: &str, at: DeckFault) -> Result<Value, Memory> {
    let DeckFault { line, kind } = at;
    let reason = format!(in alloc; "{kind}")?;
    place_of(alloc, name, line, reason.as_str())
}

// Where a fault of a text stands: which text of a launch, and its line; and what it is.
fn place_of(alloc: Global, name: &str, line: u32, reason: &str) -> Result<Value, Memory> {
    let line = format!(in alloc; "{line}")?;
    Ok(json!(in alloc; {"text": name, "line": line, "reason": reason})?)
}
