//! The texts that a launch asks for: given in the request, or read by their names.

ghost use Rattle.std.specs.Prelude.{◌≡◌, ℕ, List, None, Some, IfOk, Err};
ghost use Rattle.std.specs.Option.{option_map};
ghost use Rattle.mix_refused.specs.Refused.{IfFault};
ghost use Rattle.dap_asked.specs.declared.fault.Fault.TheVariants.{NotOpened};
ghost use Rattle.mix_dap.specs.Texts.{Known, Gives, IsText, AreCards, AreTexts, opening_of, RefusesText, RefusesTexts};

use dap_asked::Fault;
use mix_files::MAX_BUNDLE_BYTES;
use mix_machine::MAX_DECK_BYTES;
use mix_refused::Refused;
use mix_stream::{Counted, read_up_to};
use rpc_message::Request;
use std::alloc::Global;
use std::fs;
use std::rt::Files;

/// Where texts are found by their names.
pub trait Library {
    // What is known of the text of each name.
    ghost knows: { Self → List ℕ → Known };

    /// The text of a name, of which at most so many bytes are given. Where it can't be had, the fault says why: T2 or T4.
    fn text(&self, alloc: Global, name: &str, most: usize) -> Result<Vec<u8>, Refused<Fault>>
        ensures { Gives (knows self.now name.now) most result };
}

/// A library of files.
pub struct FileLibrary<'f, F: Files> {
    files: &'f F,
}

impl<F: Files> Drop for FileLibrary<'_, F> {
    fn drop(self) {
        let FileLibrary { files: _ } = self;
    }
}

impl<'f, F: Files> FileLibrary<'f, F> {
    /// The files that a runtime reaches.
    pub fn of(files: &'f F) -> FileLibrary<'f, F>
        ensures { result.files.now ≡ files.now }
    {
        FileLibrary { files }
    }
}

impl<F: Files> Library for FileLibrary<'_, F> {
    // What a file holds is known only when it is read.
    ghost knows = { λ _ _. None };

    fn text(&self, alloc: Global, name: &str, most: usize) -> Result<Vec<u8>, Refused<Fault>> {
        match fs::open(self.files, name) {
            Ok(file) => {
                let mut source = Counted::of(file);
                match read_up_to(alloc, &mut source, most) {
                    Ok(bytes) => Ok(bytes),
                    Err(Refused::Memory) => Err(Refused::Memory),
                    Err(Refused::Fault(_)) => Err(Refused::Fault(Fault::Unread)),
                }
            }
            Err(_) => Err(Refused::Fault(Fault::NotOpened)),
        }
    }
}

/// A library with nothing in it, for a launch that gives its texts itself.
#[derive(Clone, Copy)]
pub struct NoLibrary;

impl Library for NoLibrary {
    ghost knows = { λ _ _. Some (Err NotOpened) };

    fn text(&self, _alloc: Global, _name: &str, _most: usize) -> Result<Vec<u8>, Refused<Fault>> {
        Err(Refused::Fault(Fault::NotOpened))
    }
}

/// How a program begins.
#[derive(Clone, Copy)]
pub(crate) enum Opening {
    /// It waits before its first step.
    Stops,
    /// It runs.
    Runs,
    /// It runs and is not debugged: nothing but its end stops it.
    Free,
}

/// What a launch asks for: a source or a bundle with its name, a deck in place of that of the bundle, cards and what is typed in place of those of
/// the deck, and how the program begins.
#[derive(Drop)]
pub struct Texts {
    pub(crate) name: String,
    pub(crate) source: Vec<u8>,
    pub(crate) deck: Option<Vec<u8>>,
    pub(crate) cards: Option<Vec<u8>>,
    pub(crate) typed: Option<Vec<u8>>,
    pub(crate) opening: Opening,
}

/// The texts of a launch: `sourceText`, or the text of `program`, which may be a bundle; `devicesText`, or the text of `devices`, or none; and so of
/// cards and of what is typed.
pub(crate) fn texts_of<L: Library>(
    alloc: Global,
    library: &L,
    request: &Request,
) -> Result<Texts, Refused<Fault>>
    ensures texts { IfOk result (λ texts. AreTexts (L.knows library.now) request.now texts) }
    ensures refused { IfFault result (λ why. RefusesTexts (L.knows library.now) request.now why) }
{
    let program = request.text("program");
    let given = request.text("sourceText");
    if program.is_none() && given.is_none() {
        return Err(Refused::Fault(Fault::BadArgument));
    }
    let source = text_of(alloc, library, given, program, MAX_BUNDLE_BYTES + 1)?;
    let (given, named) = (request.text("devicesText"), request.text("devices"));
    let deck = cards_of(alloc, library, given, named)?;
    let (given, named) = (request.text("cardsText"), request.text("cards"));
    let cards = cards_of(alloc, library, given, named)?;
    let (given, named) = (request.text("typewriterText"), request.text("typewriter"));
    let typed = cards_of(alloc, library, given, named)?;
    let name = String::from_str(alloc, program.unwrap_or("program.mixal"))?;
    let opening = opening_of(request);
    Ok(Texts {
        name,
        source,
        deck,
        cards,
        typed,
        opening,
    })
}

// How the program of a request begins.
fn opening_of(request: &Request) -> Opening
    ensures { result ≡ opening_of request.now }
{
    if request.flag("noDebug") {
        Opening::Free
    } else if request.flag("stopOnEntry") {
        Opening::Stops
    } else {
        Opening::Runs
    }
}

// A deck, cards or what is typed, if it is given or named.
fn cards_of<L: Library>(
    alloc: Global,
    library: &L,
    given: Option<&str>,
    name: Option<&str>,
) -> Result<Option<Vec<u8>>, Refused<Fault>>
    ensures cards { IfOk result (λ cards. AreCards (L.knows library.now) (option_map (λ t. t.now) given.entry) (option_map (λ t. t.now) name.entry) (option_map (λ c. c.items) cards)) }
    ensures refused { IfFault result (λ why. RefusesText (L.knows library.now) (option_map (λ t. t.now) given.entry) (option_map (λ t. t.now) name.entry) why) }
{
    if given.is_none() && name.is_none() {
        return Ok(None);
    }
    Ok(Some(text_of(alloc, library, given, name, MAX_DECK_BYTES + 1)?))
}

// A text that is given, or else the one of a name, or else none.
fn text_of<L: Library>(
    alloc: Global,
    library: &L,
    given: Option<&str>,
    name: Option<&str>,
    most: usize,
) -> Result<Vec<u8>, Refused<Fault>>
    ensures text { IfOk result (λ text. IsText (L.knows library.now) most (option_map (λ t. t.now) given.entry) (option_map (λ t. t.now) name.entry) text.items) }
    ensures refused { IfFault result (λ why. RefusesText (L.knows library.now) (option_map (λ t. t.now) given.entry) (option_map (λ t. t.now) name.entry) why) }
{
    match (given, name) {
        (Some(text), _) => Ok(Vec::from_slice(alloc, text.as_bytes())?),
        (None, Some(name)) => library.text(alloc, name, most),
        (None, None) => Ok(Vec::new(alloc)),
    }
}
