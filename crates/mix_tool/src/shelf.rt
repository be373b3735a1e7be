//! Files in memory, for tests: of each name its text, and notes of the names that were asked for, and of those of files that were to be created.

ghost use Rattle.std.specs.Prelude.{◌≡◌, ◌++◌, ◌∷◌, [], None, OnOk, option_map, string_bytes, map};
ghost use Rattle.mix_run.specs.Opening.{Asks};
ghost use Rattle.mix_tool.specs.Shelf.{text_in};

use mix_dap::{Fault, Library};
use mix_refused::{Memory, Refused};
use mix_run::{Opener, Reason, Replaces, Unread, Unsaved, may_go};
use mix_stream::fake::Chunks;
use std::alloc::{AllocError, Global};

/// All bytes in one call.
const ALL: usize = 4096;

/// A file in memory: its name and its text.
#[derive(Clone, Copy)]
pub struct Shelved<'a> {
    pub name: &'a str,
    pub text: &'a [u8],
}

/// Files in memory. The first of two files of a name is the one that is opened. What is saved is not kept.
#[derive(Drop)]
pub struct Shelf<'a> {
    alloc: Global,
    files: &'a [Shelved<'a>],
    asked: Option<Vec<String>>,
    created: Option<Vec<String>>,
    refusal: Option<Refused<Unsaved>>,
}

impl<'a> Shelf<'a> {
    /// Files of which none was asked for yet.
    pub fn of(alloc: Global, files: &'a [Shelved<'a>]) -> Shelf<'a> {
        Shelf {
            alloc,
            files,
            asked: Some(Vec::new(alloc)),
            created: Some(Vec::new(alloc)),
            refusal: None,
        }
    }

    /// The names that were asked for, in their order; none where memory was refused for a note of them.
    pub fn asked(&self) -> Option<&[String]> {
        known(&self.asked)
    }

    /// The names of the files that were to be created, in their order; none where memory was refused for a note of them.
    pub fn created(&self) -> Option<&[String]> {
        known(&self.created)
    }
}

fn known(names: &Option<Vec<String>>) -> Option<&[String]> {
    match names {
        Some(names) => Some(names),
        None => None,
    }
}

impl<'a> Opener for Shelf<'a> {
    type Reader = Chunks<'a>;

    ghost use Rattle.std.specs.Prelude.{None, Some, map, option_map, string_bytes};
    ghost use Rattle.mix_tool.specs.Shelf.{held_in};

    ghost asked = { λ s. option_map (λ names. map string_bytes names.items) s.asked };

    ghost holds = { λ s. Some (held_in s.files.now) };

    ghost created = { λ s. option_map (λ names. map string_bytes names.items) s.created };

    // What is saved is not kept.
    ghost saved = { λ _. None };

    ghost refusal = { λ s. s.refusal };

    fn open(&mut self, name: &str) -> Result<Chunks<'a>, Reason> {
        note(self.alloc, &mut self.asked, name);
        match text_in(self.files, name.as_bytes()) {
            Some(text) => Ok(Chunks::of(text, ALL, 0)),
            None => Err(Reason::Missing),
        }
    }

    fn read(
        &mut self,
        alloc: Global,
        name: &[u8],
        most: usize,
    ) -> Result<Vec<u8>, Refused<Unread>> {
        match text_in(self.files, name) {
            Some(text) => Ok(Vec::from_slice(alloc, &text[..most.min(text.len())])?),
            None => Err(Refused::Fault(Unread::NotOpened(Reason::Missing))),
        }
    }

    fn may_replace(&self, alloc: Global, name: &[u8], over: Replaces) -> Result<bool, Memory> {
        match text_in(self.files, name) {
            Some(text) => may_go(alloc, over, text),
            None => Ok(true),
        }
    }

    fn save(
        &mut self,
        alloc: Global,
        name: &[u8],
        _text: &[u8],
        over: Replaces,
    ) -> Result<(), Refused<Unsaved>> {
        note_bytes(self.alloc, &mut self.created, name);
        let went = match self.may_replace(alloc, name, over) {
            Ok(true) => Ok(()),
            Ok(false) => Err(Refused::Fault(Unsaved::Taken)),
            Err(Memory) => Err(Refused::Memory),
        };
        if let Err(why) = went {
            self.refusal = Some(why);
        }
        went
    }
}

impl Library for Shelf<'_> {
    // A launch of a test is not said to know what these hold.
    ghost knows = { λ _ _. None };

    fn text(&self, alloc: Global, name: &str, most: usize) -> Result<Vec<u8>, Refused<Fault>> {
        match text_in(self.files, name.as_bytes()) {
            Some(text) => Ok(Vec::from_slice(alloc, &text[..most.min(text.len())])?),
            None => Err(Refused::Fault(Fault::NotOpened)),
        }
    }
}

// A name is noted; where memory is refused for it, the names are no longer known.
fn note(alloc: Global, asked: &mut Option<Vec<String>>, name: &str)
    ensures { Asks (option_map (λ names. map string_bytes names.items) asked.old) (option_map (λ names. map string_bytes names.items) asked.new) (name.now ∷ []) }
{
    if let Some(names) = asked {
        if push_name(alloc, names, name).is_err() {
            *asked = None;
        }
    }
}

// The same of a name of any bytes; one that is no text is not noted, so the names are no longer known.
fn note_bytes(alloc: Global, names: &mut Option<Vec<String>>, name: &[u8])
    ensures { Asks (option_map (λ names. map string_bytes names.items) names.old) (option_map (λ names. map string_bytes names.items) names.new) (name.now ∷ []) }
{
    match str::from_utf8(name) {
        Ok(name) => note(alloc, names, name),
        Err(_) => *names = None,
    }
}

fn push_name(alloc: Global, names: &mut Vec<String>, name: &str) -> Result<(), AllocError>
    ensures { OnOk result (map string_bytes names.new.items ≡ map string_bytes names.old.items ++ (name.now ∷ [])) }
{
    names.push(String::from_str(alloc, name)?)?;
    Ok(())
}

// The text of the first file of a name.
fn text_in<'a>(files: &[Shelved<'a>], name: &[u8]) -> Option<&'a [u8]>
    ensures { option_map (λ t. t.now) result ≡ text_in files.now name.now }
{
    let mut rest = files;
    while let [file, after @ ..] = rest {
        if file.name.as_bytes() == name {
            return Some(file.text);
        }
        rest = after;
    }
    None
}
