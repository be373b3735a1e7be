//! The emitted words (1.3.2). Those that wait for a name are linked into its chain.
ghost use Rattle.std.specs.Prelude.{◌≡◌, ◌<◌, ◌≤◌, ◌+◌, ◌++◌, [], ◌∷◌, length, map, slice_get, count_by, option_copied, IfSome, IsTrue, IfOk, OnOk, OnErr, vec_len, vec_capacity};
ghost use Rattle.mixal_asm.specs.Prelude.{is_awaited, with_address, first_wait};
ghost use Rattle.mixal_asm.specs.Assembly.{first_uses, references_in, is_reference, is_waiting};
ghost use Rattle.mixal_asm.specs.Chain.{IsLinked, IsUsed, closed, last_below, last_use, links_of};

use crate::key::Key;
use crate::names::NameTable;
use crate::user::first_wait;
use indexmap::IndexMap;
use mix_refused::Memory;
use mix_word::{Parts, Place, Word};
use std::alloc::{AllocError, Global};
use std::marker::Model;

/// A word that a line emits (1.3.2): its place, the word, and the name whose value is its address, where that was not known
/// on its line. Until then the address is +0.
#[derive(Drop)]
pub(crate) struct Emitted {
    pub place: Place,
    pub word: Word,
    pub awaits: Option<Key>,
}

/// An emitted word: as it was emitted, as it is by the names that have a value, and which word before it waits for the same
/// name, if it waits for one.
#[derive(Drop)]
pub(crate) struct Entry {
    pub emitted: Emitted,
    pub word: Word,
    pub before: Option<usize>,
}

/// The emitted words in the order of their lines, each finished as far as names have values.
pub(crate) struct WordList {
    entries: Vec<Entry>,
    // The last word that waits for each name, in the order of the first uses.
    last: IndexMap<Key, usize>,
}

// Written out, so that the proof of what drops a list has one call to read, and not those of its fields.
impl Drop for WordList {
    fn drop(self) {
        let WordList {
            entries: _,
            last: _,
        } = self;
    }
}

impl Model for WordList {
    ghost use Rattle.std.specs.Prelude.{List, map};
    ghost use Rattle.mixal_asm.specs.Chain.{Held, held_of, links_of, IsChained};

    ghost Value = { List Held };

    ghost view = { λ w. map held_of w.entries.items };

    ghost invariant = { λ w. IsChained (links_of w.entries.items) w.last.entries };
}

impl WordList {
    ghost use Rattle.mixal_asm.specs.Chain.{emitted_of, closed_held};

    /// No words. It takes no memory.
    pub(crate) fn new(alloc: Global) -> WordList
        ensures { result ≡ [] }
    {
        WordList {
            entries: Vec::new(alloc),
            last: IndexMap::new(alloc),
        }
    }

    /// How many words there are.
    pub(crate) fn len(&self) -> usize
        ensures { result ≡ length self.now }
    {
        self.entries.len()
    }

    /// Whether a word waits for a name, or waited for it before it got its value.
    pub(crate) fn is_awaited(&self, name: &Key) -> bool
        ensures { result ≡ is_awaited name.now (emitted_of self.now) }
    {
        self.last.contains_key(name)
    }

    /// The number of the first word that waits for a name, or waited for it before it got its value.
    pub(crate) fn first_wait(&self, name: &Key) -> Option<usize>
        ensures { result ≡ first_wait name.now (emitted_of self.now) }
    {
        first_wait(&self.entries, name)
    }

    /// One word more. If it waits for a name, no name before has that value.
    pub(crate) fn push(&mut self, emitted: Emitted) -> Result<(), Memory>
        ensures ok { OnOk result (self.new ≡ self.old ++ record { emitted = emitted; word = emitted.word } ∷ []) }
        ensures err { OnErr result (self.new ≡ self.old) }
    {
        self.entries.reserve(1)?;
        let before = note_use(&mut self.last, &emitted.awaits, self.entries.len())?;
        let word = emitted.word;
        let entry = Entry {
            emitted,
            word,
            before,
        };
        self.entries.push(entry).unwrap();
        Ok(())
    }

    /// Gives a name its value in all words that wait for it. The value fits two bytes if there are any.
    pub(crate) fn close(&mut self, name: &Key, value: Word)
        requires { IsTrue (is_awaited name.now (emitted_of self.old)) → value.magnitude < 4096 }
        ensures { self.new ≡ map (closed_held name.now value) self.old }
    {
        let last = self.last.get(name).copied();
        close(&mut self.entries, name, last, value);
    }

    /// The name of this number, in the order of first use, among those that words wait for or waited for.
    pub(crate) fn use_at(&self, i: usize) -> Option<&Key>
        ensures { option_copied result ≡ slice_get (first_uses (emitted_of self.now)) i }
    {
        match self.last.get_index(i) {
            Some((name, _)) => Some(name),
            None => None,
        }
    }

    /// How many such names there are.
    pub(crate) fn use_count(&self) -> usize
        ensures { result ≡ length (first_uses (emitted_of self.now)) }
    {
        self.last.len()
    }

    /// The words with their places.
    pub(crate) fn placed(&self, alloc: Global) -> Result<Vec<(Place, Word)>, AllocError>
        ensures { IfOk result (λ words. words.items ≡ map (λ held. (held.emitted.place, held.word)) self.now) }
    {
        placed(alloc, &self.entries)
    }

    /// How many words have a future reference.
    pub(crate) fn references(&self) -> usize
        ensures { result ≡ references_in (emitted_of self.now) }
    {
        self.entries
            .iter()
            .filter(|entry| is_reference(&entry.emitted.awaits))
            .count()
    }

    /// How many words wait for a name that has no value yet, the places of literals aside.
    pub(crate) fn waiting(&self, names: &NameTable) -> usize
        ensures { result ≡ count_by (λ word. is_waiting names.now word.awaits) (emitted_of self.now) }
    {
        self.entries
            .iter()
            .filter(|entry| is_waiting(names, &entry.emitted.awaits))
            .count()
    }
}

/// An instruction with this value as its address, which fits two bytes.
pub(crate) fn with_address(word: Word, value: Word) -> Word
    requires { value.magnitude < 4096 }
    ensures { result ≡ with_address word value }
{
    Word::join(Parts {
        sign: value.sign(),
        address: value.magnitude() as u16,
        ..word.parts()
    })
}

// Gives all words that wait for a name its value as their address, from the last one back along the links.
fn close(entries: &mut Vec<Entry>, name: &Key, last: Option<usize>, value: Word)
    requires linked { IsLinked (links_of entries.old.items) }
    requires last { last ≡ last_below name.now (links_of entries.old.items) (length entries.old.items) }
    requires fits { IfSome last (λ _. value.magnitude < 4096) }
    ensures { entries.new.items ≡ map (closed name.now value) entries.old.items }
{
    let mut next = last;
    while let Some(at) = next {
        let entry = &mut entries[at];
        entry.word = with_address(entry.emitted.word, value);
        next = entry.before;
    }
}

fn placed(alloc: Global, entries: &[Entry]) -> Result<Vec<(Place, Word)>, AllocError>
    ensures { IfOk result (λ words. words.items ≡ map (λ entry. (entry.emitted.place, entry.word)) entries.now) }
{
    let mut words = Vec::new(alloc);
    words.reserve(entries.len())?;
    push_placed(&mut words, entries);
    Ok(words)
}

// Appends the words of some entries with their places, for which there is room.
fn push_placed(list: &mut Vec<(Place, Word)>, entries: &[Entry])
    requires { vec_len list.old + length entries.now ≤ vec_capacity list.old }
    ensures items { list.new.items ≡ list.old.items ++ map (λ entry. (entry.emitted.place, entry.word)) entries.now }
{
    for entry in entries {
        list.push_reserved((entry.emitted.place, entry.word));
    }
}

// Notes that the word at a place in the list is the last use of what it waits for, and gives the use before.
fn note_use(
    last: &mut IndexMap<Key, usize>,
    awaits: &Option<Key>,
    at: usize,
) -> Result<Option<usize>, Memory>
    ensures before { IfOk result (λ before. before ≡ last_use last.old.entries awaits.now) }
    ensures used { OnOk result (IsUsed last.old.entries last.new.entries awaits.now at) }
    ensures err { OnErr result (last.new.entries ≡ last.old.entries) }
{
    match awaits {
        None => Ok(None),
        Some(name) => Ok(last.insert(name.copied(), at)?),
    }
}

fn is_reference(awaits: &Option<Key>) -> bool
    ensures { result ≡ is_reference awaits.now }
{
    match awaits {
        Some(Key::Name(_) | Key::Local(..)) => true,
        Some(Key::Literal(_)) | None => false,
    }
}

fn is_waiting(names: &NameTable, awaits: &Option<Key>) -> bool
    ensures { result ≡ is_waiting names.now awaits.now }
{
    match awaits {
        Some(name) => is_reference(awaits) && names.value(name).is_none(),
        None => false,
    }
}
