//! The files of a plan, opened into one record of readers.

ghost use Rattle.std.specs.Prelude.{◌≡◌, Option, None, Some, [], IfOk, IfErr, option_map};
ghost use Rattle.std.specs.Option.{option_map_or};
ghost use Rattle.mix_run.specs.Opening.{Files, Opens, named, text_of};
ghost use Rattle.mix_tool.specs.Plan.{AreFresh, HoldTexts, given_of, in_order, names_in, rest_of};

use mix_run::{Opener, Reason};
use mix_stream::{Failed, In};

/// A text that may be named: the reader of its file, and where it is not named no byte.
#[derive(Drop)]
pub(crate) struct Text<R> {
    pub(crate) reader: Option<R>,
}

impl<R: In> In for Text<R> {
    ghost use Rattle.std.specs.Prelude.{Some, []};
    ghost use Rattle.std.specs.Option.{option_map_or};

    ghost rest = { λ t. option_map_or R.rest t.reader (Some []) };

    ghost failed = { λ t. option_map_or R.failed t.reader 0 };

    fn read(&mut self, buf: &mut [u8]) -> Result<usize, Failed> {
        match &mut self.reader {
            Some(reader) => reader.read(buf),
            None => Ok(0),
        }
    }

    fn failures(&self) -> u64 {
        match &self.reader {
            Some(reader) => reader.failures(),
            None => 0,
        }
    }
}

/// The names of the files of a plan, each that it has.
#[derive(Clone, Copy)]
pub(crate) struct Names<'n> {
    pub(crate) source: Option<&'n str>,
    pub(crate) deck: Option<&'n str>,
    pub(crate) cards: Option<&'n str>,
    pub(crate) typewriter: Option<&'n str>,
    pub(crate) script: Option<&'n str>,
}

/// The texts of a plan.
#[derive(Drop)]
pub(crate) struct Texts<R> {
    pub(crate) source: Text<R>,
    pub(crate) deck: Text<R>,
    pub(crate) cards: Text<R>,
    pub(crate) typewriter: Text<R>,
    pub(crate) script: Text<R>,
}

/// A file that could not be opened, and why.
#[derive(Clone, Copy)]
pub(crate) struct NotOpened<'n> {
    pub(crate) name: &'n str,
    pub(crate) reason: Reason,
}

// The text of a name, if there is one.
fn open_text<'n, O: Opener>(
    files: &mut O,
    name: Option<&'n str>,
) -> Result<Text<O::Reader>, NotOpened<'n>>
    ensures opened { (all : Files) → O.holds files.old ≡ Some all
        → IfOk result (λ _. Opens all (named (option_map (λ n. n.now) name.entry)) (O.asked files.old) (O.asked files.new) None) }
    ensures missing { (all : Files) → O.holds files.old ≡ Some all
        → IfErr result (λ e. Opens all (named (option_map (λ n. n.now) name.entry)) (O.asked files.old) (O.asked files.new) (Some (e.name.now, e.reason))) }
    ensures text { (all : Files) → O.holds files.old ≡ Some all
        → IfOk result (λ t. rest_of O.Reader.rest t.reader ≡ Some (text_of all (option_map (λ n. n.now) name.entry))) }
    ensures fresh { IfOk result (λ t. option_map_or O.Reader.failed t.reader 0 ≡ 0) }
    ensures same { O.holds files.new ≡ O.holds files.old }
    ensures unsaved { (O.created files.new ≡ O.created files.old) × (O.saved files.new ≡ O.saved files.old) × (O.refusal files.new ≡ O.refusal files.old) }
{
    match name {
        None => Ok(Text { reader: None }),
        Some(name) => match files.open(name) {
            Ok(reader) => Ok(Text {
                reader: Some(reader),
            }),
            Err(reason) => Err(NotOpened { name, reason }),
        },
    }
}

/// Opens the files of a plan, in the order source, deck, cards, typewriter, script, up to the first that can't be opened.
pub(crate) fn open_texts<'n, O: Opener>(
    files: &mut O,
    names: Names<'n>,
) -> Result<Texts<O::Reader>, NotOpened<'n>>
    ensures opened { (all : Files) → O.holds files.old ≡ Some all
        → IfOk result (λ _. Opens all (in_order (names_in names.entry)) (O.asked files.old) (O.asked files.new) None) }
    ensures missing { (all : Files) → O.holds files.old ≡ Some all
        → IfErr result (λ e. Opens all (in_order (names_in names.entry)) (O.asked files.old) (O.asked files.new) (Some (e.name.now, e.reason))) }
    ensures texts { (all : Files) → O.holds files.old ≡ Some all → IfOk result (λ t. HoldTexts O.Reader.rest t (given_of all (names_in names.entry))) }
    ensures fresh { IfOk result (AreFresh O.Reader.failed) }
    ensures same { O.holds files.new ≡ O.holds files.old }
    ensures unsaved { (O.created files.new ≡ O.created files.old) × (O.saved files.new ≡ O.saved files.old) × (O.refusal files.new ≡ O.refusal files.old) }
{
    let source = open_text(files, names.source)?;
    let deck = open_text(files, names.deck)?;
    let cards = open_text(files, names.cards)?;
    let typewriter = open_text(files, names.typewriter)?;
    let script = open_text(files, names.script)?;
    Ok(Texts {
        source,
        deck,
        cards,
        typewriter,
        script,
    })
}
