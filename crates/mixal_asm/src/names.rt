//! The names that have a value (1.3.2).
ghost use Rattle.std.specs.Prelude.{◌≡◌, [], ◌∷◌, ◌++◌, ◌+◌, ◌<◌, ◌^◌, None, OnOk, OnErr};
ghost use Rattle.mixal_asm.specs.declared.key.Key.TheVariants.{Local};
ghost use Rattle.mixal_asm.specs.PassOne.{value_of, locals_in, back_of, name_of};
ghost use Rattle.mixal_asm.specs.Table.{IsNoted, IsWithin};
ghost use Rattle.mixal_asm.specs.Listing.{is_symbol, symbols_in};

use crate::key::Key;
use indexmap::IndexMap;
use indexmap::map::Iter;
use mix_refused::Memory;
use mix_word::Word;
use mixal_text::Label;
use std::alloc::Global;
use std::marker::Model;

/// Of a digit d, how many dH there are, and the value of the last one.
#[derive(Clone, Copy)]
pub(crate) struct Latest {
    pub count: usize,
    pub value: Word,
}

/// The names that have a value, in the order in which they got it.
pub(crate) struct NameTable {
    values: IndexMap<Key, Word>,
    latest: IndexMap<u8, Latest>,
}

// Written out, so that the proof of what drops a table has one call to read, and not those of its fields.
impl Drop for NameTable {
    fn drop(self) {
        let NameTable {
            values: _,
            latest: _,
        } = self;
    }
}

impl Model for NameTable {
    ghost use Rattle.mixal_asm.specs.PassOne.{NamesSoFar};
    ghost use Rattle.mixal_asm.specs.Table.{IsTable};

    ghost Value = { NamesSoFar };

    ghost view = { λ t. t.values.entries };

    ghost invariant = { λ t. IsTable t.values.entries t.latest.entries };
}

impl NameTable {
    ghost use Rattle.mixal_asm.specs.Table.{IsNew};

    /// No names. It takes no memory.
    pub(crate) fn new(alloc: Global) -> NameTable
        ensures { result ≡ [] }
    {
        NameTable {
            values: IndexMap::new(alloc),
            latest: IndexMap::new(alloc),
        }
    }

    /// The value of a name that has one.
    pub(crate) fn value(&self, name: &Key) -> Option<Word>
        ensures { result ≡ value_of self.now name.now }
    {
        self.values.get(name).copied()
    }

    /// The value of the last dH, if there is one.
    pub(crate) fn back(&self, d: u8) -> Option<Word>
        ensures { result ≡ back_of self.now d }
    {
        match self.latest.get(&d) {
            Some(latest) => Some(latest.value),
            None => None,
        }
    }

    /// How many dH there are.
    pub(crate) fn locals(&self, d: u8) -> usize
        ensures { result ≡ locals_in d self.now }
    {
        match self.latest.get(&d) {
            Some(latest) => latest.count,
            None => 0,
        }
    }

    /// What dF waits for: the next dH, which has no value yet.
    pub(crate) fn next_local(&self, d: u8) -> Key
        ensures is { result ≡ Local d (locals_in d self.now) }
        ensures open { value_of self.now result ≡ None }
    {
        // A field is named here, so that the proof knows the invariant of the table.
        let _ = &self.values;
        Key::Local(d, self.locals(d))
    }

    /// The name that a LOC defines.
    pub(crate) fn name_of(&self, loc: &Label) -> Key
        ensures { result ≡ name_of self.now loc.now }
    {
        match loc {
            Label::Name(symbol) => Key::Name(symbol.copied()),
            Label::Local(d) => Key::Local(*d, self.locals(*d)),
        }
    }

    /// The names with their values, in the order in which they got them.
    pub(crate) fn iter(&self) -> Iter<'_, Key, Word>
        ensures { result ≡ self.now }
    {
        self.values.iter()
    }

    /// How many of the names are ordinary symbols.
    pub(crate) fn symbols(&self) -> usize
        ensures { result ≡ symbols_in self.now }
    {
        self.values.iter().filter(|name| is_symbol(name.0)).count()
    }

    /// Gives a new name its value.
    pub(crate) fn define(&mut self, name: Key, value: Word) -> Result<(), Memory>
        requires { IsNew self.old name }
        ensures ok { OnOk result (self.new ≡ self.old ++ (name, value) ∷ []) }
        ensures err { OnErr result (self.new ≡ self.old) }
        ensures fresh { value_of self.old name ≡ None }
    {
        self.values.reserve(1)?;
        note_latest(&mut self.latest, &name, value, self.values.len())?;
        self.values.insert(name, value).unwrap();
        Ok(())
    }
}

fn is_symbol(key: &Key) -> bool
    ensures { result ≡ is_symbol key.now }
{
    match key {
        Key::Name(_) => true,
        Key::Local(..) | Key::Literal(_) => false,
    }
}

// Notes that a dH is the last one now. There are at most as many as names.
fn note_latest(
    latest: &mut IndexMap<u8, Latest>,
    name: &Key,
    value: Word,
    names: usize,
) -> Result<(), Memory>
    requires within { IsWithin names name.now }
    requires small { names < 2 ^ 63 }
    ensures noted { OnOk result (IsNoted latest.old.entries latest.new.entries name.now value) }
    ensures err { OnErr result (latest.new.entries ≡ latest.old.entries) }
{
    match name {
        Key::Local(d, n) => {
            let next = Latest {
                count: *n + 1,
                value,
            };
            latest.insert(*d, next)?;
            Ok(())
        }
        Key::Name(_) | Key::Literal(_) => Ok(()),
    }
}
