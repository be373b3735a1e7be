//! The files of a system, and standard input under the name `-`.

ghost use Rattle.std.specs.Prelude.{◌≡◌, ℕ, List, None, Some, Err, IfErr, IfOk, IsOk, take};
ghost use Rattle.std.specs.Fs.{IsDir, file_type};

use crate::save::{may_replace, save_file};
use mix_dap::{Fault, FileLibrary, Library};
use mix_refused::{Memory, Refused};
use mix_run::{Opener, Reason, Replaces, Unread, Unsaved};
use mix_stream::{Counted, In, read_up_to};
use std::alloc::Global;
use std::fs::{self, Metadata, OpenFile};
use std::io::{self, Input, Print, Read};
use std::rt::Files;

/// The files of a system. What they hold is known only when they are read; of what is written to
/// them are known the names of those that were saved, and why the last text that was not saved was not.
pub struct SystemFiles<'f, F: Files> {
    files: &'f F,
    saved: Vec<String>,
    refusal: Option<Refused<Unsaved>>,
}

impl<F: Files> Drop for SystemFiles<'_, F> {
    fn drop(self) {
        let SystemFiles {
            files: _,
            saved: _,
            refusal: _,
        } = self;
    }
}

impl<'f, F: Files> SystemFiles<'f, F> {
    /// The files that a runtime reaches, of which none was saved yet.
    pub fn of(alloc: Global, files: &'f F) -> SystemFiles<'f, F>
        ensures { result.refusal ≡ None }
    {
        SystemFiles {
            files,
            saved: Vec::new(alloc),
            refusal: None,
        }
    }
}

impl<F: Files + Print> SystemFiles<'_, F> {
    // Saves a text under a name. What was saved under it before may always be replaced where something may.
    fn save_named(
        &mut self,
        alloc: Global,
        name: &str,
        text: &[u8],
        over: Replaces,
    ) -> Result<(), Refused<Unsaved>>
        ensures { self.new.refusal ≡ self.old.refusal }
    {
        let is_own = self.saved.iter().any(|own| own.as_str() == name);
        let over = match over {
            Replaces::Nothing | Replaces::Bundle if is_own => Replaces::Anything,
            _ => over,
        };
        let own = String::from_str(alloc, name)?;
        self.saved.reserve(1)?;
        save_file(self.files, alloc, name, text, over)?;
        self.saved.push(own)?;
        Ok(())
    }
}

/// What a name leads to: a file, or standard input, which is read from where it is.
#[derive(Drop)]
pub enum Opened<F, I> {
    File(F),
    Input(I),
}

impl<F: Read, I: Read> Read for Opened<F, I> {
    fn read(&mut self, buf: &mut [u8]) -> io::Result<usize> {
        match self {
            Opened::File(file) => file.read(buf),
            Opened::Input(input) => input.read(buf),
        }
    }
}

impl<F: Files + Input + Print> Opener for SystemFiles<'_, F> {
    type Reader = Counted<Opened<F::File, F::Reader>>;

    ghost use Rattle.std.specs.Prelude.{None};

    ghost asked = { λ _. None };

    ghost holds = { λ _. None };

    ghost created = { λ _. None };

    ghost saved = { λ _. None };

    ghost refusal = { λ s. s.refusal };

    fn open(&mut self, name: &str) -> Result<Counted<Opened<F::File, F::Reader>>, Reason> {
        if name == "-" {
            let about = fs::metadata(self.files, "/dev/stdin");
            return unless_folder(Opened::Input(self.files.reader()), about);
        }
        match fs::open(self.files, name) {
            Ok(file) => {
                let about = file.metadata();
                unless_folder(Opened::File(file), about)
            }
            Err(error) => Err(Reason::of(error.kind())),
        }
    }

    fn read(
        &mut self,
        alloc: Global,
        name: &[u8],
        most: usize,
    ) -> Result<Vec<u8>, Refused<Unread>> {
        match str::from_utf8(name) {
            Err(_) => Err(Refused::Fault(Unread::NotOpened(Reason::Other))),
            Ok(name) => text_of(alloc, self.open(name), most),
        }
    }

    fn may_replace(&self, alloc: Global, name: &[u8], over: Replaces) -> Result<bool, Memory> {
        match str::from_utf8(name) {
            Err(_) => Ok(true),
            Ok(name) => match may_replace(self.files, alloc, name, over) {
                Ok(may) => Ok(may),
                Err(Refused::Memory) => Err(Memory),
                Err(Refused::Fault(_)) => Ok(false),
            },
        }
    }

    fn save(
        &mut self,
        alloc: Global,
        name: &[u8],
        text: &[u8],
        over: Replaces,
    ) -> Result<(), Refused<Unsaved>> {
        let went = match str::from_utf8(name) {
            Err(_) => Err(Refused::Fault(Unsaved::NotOpened(Reason::Other))),
            Ok(name) => self.save_named(alloc, name, text, over),
        };
        if let Err(why) = went {
            self.refusal = Some(why);
        }
        went
    }
}

impl<F: Files> Library for SystemFiles<'_, F> {
    // What a file holds is known only when it is read.
    ghost knows = { λ _ _. None };

    fn text(&self, alloc: Global, name: &str, most: usize) -> Result<Vec<u8>, Refused<Fault>> {
        FileLibrary::of(self.files).text(alloc, name, most)
    }
}

// What was opened, unless it is a folder: that a system opens too, but it can't be read.
fn unless_folder<T: Drop>(opened: T, about: io::Result<Metadata>) -> Result<Counted<T>, Reason>
    ensures folder { IfOk about (λ m. IsDir (file_type m) → result ≡ Err Reason.Folder) }
    ensures file { IfOk about (λ m. (IsDir (file_type m) → ⊥) → IsOk result) }
    ensures fresh { IfOk result (λ r. (r.inner ≡ opened) × (r.count ≡ 0)) }
{
    match about {
        Ok(about) if about.is_dir() => Err(Reason::Folder),
        Ok(_) | Err(_) => Ok(Counted::of(opened)),
    }
}

// The text of what was opened, from where it is up to its end, or to so many bytes.
fn text_of<R: In + Drop>(
    alloc: Global,
    opened: Result<R, Reason>,
    most: usize,
) -> Result<Vec<u8>, Refused<Unread>>
    requires { IfOk opened (λ r. R.failed r ≡ 0) }
    ensures text { (s : List ℕ) → IfOk opened (λ r. R.rest r ≡ Some s) → IfOk result (λ v. v.items ≡ take most s) }
    ensures unopened { IfErr opened (λ why. result ≡ Err (Refused.Fault (Unread.NotOpened why))) }
{
    match opened {
        Ok(reader) => {
            let mut reader = reader;
            match read_up_to(alloc, &mut reader, most) {
                Ok(text) => Ok(text),
                Err(Refused::Memory) => Err(Refused::Memory),
                Err(Refused::Fault(_)) => Err(Refused::Fault(Unread::NotRead)),
            }
        }
        Err(reason) => Err(Refused::Fault(Unread::NotOpened(reason))),
    }
}
