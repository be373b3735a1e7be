//! What a talk recalls of a person's lines, and what it reads them with.

ghost use Rattle.std.specs.Prelude.{◌≡◌, [], IfOk, OnOk};
ghost use Rattle.mix_run.specs.Recall.{nothing, read_as, recalled_after, recalled_display, recalled_watch, watched_more};
ghost use Rattle.mix_session.specs.Session.{request_in};

mod points;

use crate::bundle::copy_of;
use crate::talk::aside::{After, tell_shown};
use crate::talk::finish::finished;
use crate::talk::listing::Listed;
use crate::talk::points::can_wait;
use crate::talk::watched::{condition_watched, put_watched};
use mix_person::{form_of, person_line, shows_part};
use mix_refused::Memory;
use mix_session::{Request, Session};
use std::alloc::Global;
use std::marker::Model;

/// The line of a script that a blank line stands for: that of the line before it, or an empty one, where that was no command. With it what is
/// watched, the points, the lines that show what is displayed, the script of what was done, and where the last `list` has ended.
#[derive(Drop)]
pub(crate) struct Recall {
    alloc: Global,
    again: Vec<u8>,
    watch: Vec<u8>,
    points: Vec<u8>,
    displays: Vec<u8>,
    done: Vec<u8>,
    listed: Option<Listed>,
}

pub(crate) const MOST: &[u8] =
    b"no more than eight are watched or are breakpoints; delete forgets those, clear all these\n";

impl Model for Recall {
    ghost use Rattle.mix_run.specs.Recall.{RecallState};

    ghost Value = { RecallState };

    ghost view = { λ r. record { again = r.again.items; watch = r.watch.items; points = r.points.items; displays = r.displays.items; done = r.done.items } };
}

impl Recall {
    pub(crate) fn new(alloc: Global) -> Recall
        ensures { result ≡ nothing }
    {
        Recall {
            alloc,
            again: Vec::new(alloc),
            watch: Vec::new(alloc),
            points: Vec::new(alloc),
            displays: Vec::new(alloc),
            done: Vec::new(alloc),
            listed: None,
        }
    }

    pub(crate) fn allocator(&self) -> Global {
        self.alloc
    }

    /// The line of a script that a person's line is read as.
    pub(crate) fn line(&self, session: &Session, line: &[u8]) -> Result<Vec<u8>, Memory>
        ensures { IfOk result (λ text. text.items ≡ read_as session.now self.now line.now) }
    {
        let typed = person_line(
            self.alloc,
            session.program(),
            &self.again,
            &self.watch,
            line,
        )?;
        finished(self.alloc, session, typed)
    }

    /// Where the last `list` has ended.
    pub(crate) fn listed(&self) -> Option<Listed> {
        self.listed
    }

    /// Where a `list` has ended.
    pub(crate) fn list_ends(&mut self, listed: Option<Listed>)
        ensures { self.new ≡ self.old }
    {
        self.listed = listed;
    }

    /// A blank line repeats nothing.
    pub(crate) fn repeat_nothing(&mut self)
        ensures { self.new ≡ record self.old { again = [] } }
    {
        self.again.clear();
    }

    /// A blank line repeats this line of a script.
    pub(crate) fn repeat(&mut self, typed: &[u8]) -> Result<(), Memory>
        ensures { OnOk result (self.new ≡ record self.old { again = typed.now }) }
    {
        self.again.clear();
        self.again.extend_from_slice(typed)?;
        Ok(())
    }

    /// What a line asks for is watched too, if it has conditions, and there are then no more than eight; a person is told what is not.
    pub(crate) fn watch(
        &mut self,
        session: &Session,
        line: &[u8],
        note: &mut Vec<u8>,
    ) -> Result<(), Memory>
        ensures { OnOk result (self.new ≡ recalled_watch session.now (request_in session.now line.now) line.now self.old) }
    {
        match session.read(line) {
            Ok(Request::RunUntil(..)) => {
                let mut watch = copy_of(self.alloc, &self.watch)?;
                put_watched(&mut watch, line)?;
                self.watch_more(session, watch, note)?;
            }
            Ok(_) => {}
            Err(_) => note.extend_from_slice(form_of(Some(b"watch")).as_bytes())?,
        }
        Ok(())
    }

    // This is watched, if there are then no more than eight conditions.
    fn watch_more(
        &mut self,
        session: &Session,
        watch: Vec<u8>,
        note: &mut Vec<u8>,
    ) -> Result<(), Memory>
        ensures { OnOk result (self.new ≡ watched_more session.now watch.items self.old) }
    {
        if !can_wait(self.alloc, session, &watch, &self.points)? {
            note.extend_from_slice(MOST)?;
            return Ok(());
        }
        self.watch = watch;
        note.extend_from_slice(b"watching")?;
        note.extend_from_slice(condition_watched(&self.watch))?;
        note.extend_from_slice(b"\n")?;
        Ok(())
    }

    /// Nothing is watched any more.
    pub(crate) fn delete(&mut self)
        ensures { self.new ≡ record self.old { watch = [] } }
    {
        self.watch.clear();
    }

    /// What a line asks for is shown, now and after each stop, if it is there to be shown.
    pub(crate) fn display(
        &mut self,
        session: &Session,
        line: &[u8],
        note: &mut Vec<u8>,
    ) -> Result<(), Memory>
        ensures { OnOk result (self.new ≡ recalled_display session.now line.now self.old) }
    {
        if shows_part(line) || session.read(line).is_ok() {
            self.displays.extend_from_slice(line)?;
            self.displays.extend_from_slice(b"\n")?;
            tell_shown(self.alloc, session, line, note)?;
        } else {
            note.extend_from_slice(form_of(Some(b"display")).as_bytes())?;
        }
        Ok(())
    }

    /// Nothing is displayed any more.
    pub(crate) fn undisplay(&mut self)
        ensures { self.new ≡ record self.old { displays = [] } }
    {
        self.displays.clear();
    }

    /// After a stop a person is told what is displayed.
    pub(crate) fn tell_displays(
        &self,
        after: After,
        session: &Session,
        note: &mut Vec<u8>,
    ) -> Result<(), Memory> {
        match after {
            After::Nothing | After::Changed | After::Refused => Ok(()),
            After::Stop | After::Done => tell_shown(self.alloc, session, &self.displays, note),
        }
    }

    /// The script of what was done.
    pub(crate) fn done(&self) -> &[u8]
        ensures { result.now ≡ self.now.done }
    {
        &self.done
    }

    /// A line of a script was executed, and this follows it.
    pub(crate) fn keep(&mut self, after: After, line: &[u8]) -> Result<(), Memory>
        ensures { OnOk result (self.new ≡ recalled_after after line.now self.old) }
    {
        match after {
            After::Nothing | After::Refused => {}
            After::Changed | After::Stop | After::Done => {
                self.done.extend_from_slice(line)?;
                self.done.extend_from_slice(b"\n")?;
            }
        }
        Ok(())
    }
}
