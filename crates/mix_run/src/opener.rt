//! What opens files by their names, reads them, and saves texts in them.

ghost use Rattle.std.specs.Prelude.{◌≡◌, ◌∷◌, [], ℕ, List, Option, Some, IfOk, OnOk, false};
ghost use Rattle.mix_run.specs.Opening.{Asks, Files, Gives, GivesText, Saved, WhyUnsaved, is_saved, may_replace, noted, refused_by, rest_given};

use crate::reason::Reason;
use crate::replaces::Replaces;
use mix_refused::{Memory, Refused};
use mix_stream::In;
use std::alloc::Global;

/// Why the text of a file is not read.
#[derive(Clone, Copy)]
pub enum Unread {
    /// The file can't be opened.
    NotOpened(Reason),
    /// A read failed.
    NotRead,
}

/// Why a text is not saved in a file.
#[derive(Clone, Copy)]
pub enum Unsaved {
    /// The file can't be created.
    NotOpened(Reason),
    /// The text, or a part of it, can't be written.
    NotWritten(Reason),
    /// The file holds something that may not be replaced.
    Taken,
}

/// What opens files by their names, reads them, and saves texts in them.
pub trait Opener {
    type Reader: In + Drop;

    // The names that were asked for so far, in their order, where they are known.
    ghost asked: { Self → Option (List (List ℕ)) };

    // The text of each file, or why it can't be opened, where that is known.
    ghost holds: { Self → Option Files };

    // The names of the files that were to be created so far, in their order, where they are known.
    ghost created: { Self → Option (List (List ℕ)) };

    // The texts that were to be saved so far, in their order, each with the name of its file and what that may hold, where they are known.
    ghost saved: { Self → Option (List Saved) };

    // Why the last text that was not saved was not; none where each was.
    ghost refusal: { Self → Option WhyUnsaved };

    /// A reader of a file from its beginning, with no failure yet, or why the file can't be opened.
    fn open(&mut self, name: &str) -> Result<Self::Reader, Reason>
        ensures asked { Asks (asked self.old) (asked self.new) (name.now ∷ []) }
        ensures given { (all : Files) → holds self.old ≡ Some all → Gives (all name.now) (rest_given Self.Reader.rest result) }
        ensures fresh { IfOk result (λ r. Self.Reader.failed r ≡ 0) }
        ensures same { holds self.new ≡ holds self.old }
        ensures nothing_created { created self.new ≡ created self.old }
        ensures nothing_saved { saved self.new ≡ saved self.old }
        ensures nothing_refused { refusal self.new ≡ refusal self.old };

    /// The text of a file beside those that are opened, up to its end or to so many bytes; or why it can't be read, or memory is refused.
    fn read(&mut self, alloc: Global, name: &[u8], most: usize) -> Result<Vec<u8>, Refused<Unread>>
        ensures given { (all : Files) → holds self.old ≡ Some all → GivesText (λ text. text.items) (all name.now) most result }
        ensures same { holds self.new ≡ holds self.old }
        ensures nothing_asked { asked self.new ≡ asked self.old }
        ensures nothing_created { created self.new ≡ created self.old }
        ensures nothing_saved { saved self.new ≡ saved self.old }
        ensures nothing_refused { refusal self.new ≡ refusal self.old };

    /// Whether a text may be saved in a file of this name, by what the file holds. Memory may be refused.
    fn may_replace(&self, alloc: Global, name: &[u8], over: Replaces) -> Result<bool, Memory>
        ensures known { (all : Files) → holds self.now ≡ Some all → IfOk result (λ may. may ≡ may_replace over (all name.now)) };

    /// Saves a text in a file of this name, or says why not, or memory is refused. A file that is
    /// there already is replaced only if it is empty or holds what may be replaced; it is to hold
    /// either what it held or the whole text, and never a part of it. A device is written to as it is.
    fn save(
        &mut self,
        alloc: Global,
        name: &[u8],
        text: &[u8],
        over: Replaces,
    ) -> Result<(), Refused<Unsaved>>
        ensures created { Asks (created self.old) (created self.new) (name.now ∷ []) }
        ensures saved { saved self.new ≡ noted (saved self.old) (record { name = name.now; text = text.now; over = over } ∷ []) }
        ensures taken { (all : Files) → holds self.old ≡ Some all → is_saved (saved self.old) name.now ≡ false → may_replace over (all name.now) ≡ false
            → OnOk result ⊥ }
        ensures refused { refusal self.new ≡ refused_by (refusal self.old) result }
        ensures same { holds self.new ≡ holds self.old }
        ensures nothing_asked { asked self.new ≡ asked self.old };
}
