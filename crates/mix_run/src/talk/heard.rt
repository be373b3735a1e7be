//! What becomes of typed lines: each is answered, or it saves, sources a file or reloads, up to the one that ends the talk.

ghost use Rattle.std.specs.Prelude.{◌≡◌, ◌<◌, ◌-◌, ◌^◌, ◌∷◌, [], List, Option, Err, IfErr, IfOk};
ghost use Rattle.mix_lines.specs.Lines.{lines};
ghost use Rattle.mix_run.specs.Prelude.{IsMemoryOrWrite, Answered, Files, Knows, Saved, talk_of, typed_line};
ghost use Rattle.mix_run.specs.Sources.{act_of};
ghost use Rattle.mix_run.specs.Stretch.{answer_of, each_line};
ghost use Rattle.mix_stream.specs.Stream.{AppendsFront, CountsFailure};

use crate::fault::ToolFault;
use crate::opener::Opener;
use crate::talk::answer::reply_to;
use crate::talk::aside::{Talker, prompt, say};
use crate::talk::moment::Moment;
use crate::talk::reload::reload;
use crate::talk::save::save;
use crate::talk::source::text_sourced;
use mix_lines::split_line;
use mix_person::{Line, kind_of};
use mix_session::Told;
use mix_stream::{Out, write_all};

/// What became of some lines: whether each command was accepted, and whether one of them ended the talk.
#[derive(Clone, Copy)]
pub(super) struct Heard {
    pub(super) told: Told,
    pub(super) is_over: bool,
}

const DONE: Heard = Heard {
    told: Told::Accepted,
    is_over: false,
};

/// What a typed line does: it is answered, or it saves, sources a file or reloads.
#[derive(Clone, Copy)]
pub(super) enum Act {
    Answer,
    Save,
    Source,
    Reload,
}

// What a line does; a program's line is always answered.
fn act_of(talker: Talker, line: &[u8]) -> Act
    ensures { result ≡ act_of talker line.now }
{
    match talker {
        Talker::Program => Act::Answer,
        Talker::Person => match kind_of(line) {
            Line::Save | Line::SaveOver => Act::Save,
            Line::Source => Act::Source,
            Line::Reload => Act::Reload,
            _ => Act::Answer,
        },
    }
}

// One line is answered: its reply is written, and then what a person is told beside it.
fn answer_line<W: Out, E: Out>(
    moment: &mut Moment,
    talker: Talker,
    line: &[u8],
    out: &mut W,
    errors: &mut E,
) -> Result<Heard, ToolFault>
    requires { W.failed out.old < 2 ^ 64 - 1 }
    ensures answered { (d : Option (List Saved)) → IfOk result (λ now. Answered (answer_of talker moment.old line.now)
        moment.new now.told now.is_over d d (W.told out.old) (W.told out.new)) }
    ensures begun { AppendsFront (W.told out.old) (W.told out.new) (answer_of talker moment.old line.now).bytes }
    ensures write { CountsFailure (result ≡ Err ToolFault.Write) (W.failed out.old) (W.failed out.new) }
    ensures only { IfErr result IsMemoryOrWrite }
{
    let reply = reply_to(moment, talker, line)?;
    write_all(out, &reply.text)?;
    say(&reply.note, errors);
    Ok(Heard {
        told: reply.told,
        is_over: reply.is_over,
    })
}

// The lines of a file that is sourced, one after the other, up to the one that ends the talk.
fn answer_lines<W: Out, E: Out>(
    moment: &mut Moment,
    talker: Talker,
    text: &[u8],
    out: &mut W,
    errors: &mut E,
) -> Result<Heard, ToolFault>
    requires { W.failed out.old < 2 ^ 64 - 1 }
    ensures answered { (d : Option (List Saved)) → IfOk result (λ now. Answered (each_line (answer_of talker) moment.old (lines text.now))
        moment.new now.told now.is_over d d (W.told out.old) (W.told out.new)) }
    ensures begun { AppendsFront (W.told out.old) (W.told out.new) (each_line (answer_of talker) moment.old (lines text.now)).bytes }
    ensures write { CountsFailure (result ≡ Err ToolFault.Write) (W.failed out.old) (W.failed out.new) }
    ensures only { IfErr result IsMemoryOrWrite }
{
    let mut told = Told::Accepted;
    let mut rest = text;
    while !rest.is_empty() {
        let (line, after) = split_line(rest);
        let now = answer_line(moment, talker, line, out, errors)?;
        told = told.and(now.told);
        if now.is_over {
            return Ok(Heard {
                told,
                is_over: true,
            });
        }
        rest = after;
    }
    Ok(Heard {
        told,
        is_over: false,
    })
}

// A typed line: the source is reloaded, what was done is saved, or the lines that it stands for are answered.
fn answer_typed<O: Opener, W: Out, E: Out>(
    moment: &mut Moment,
    talker: Talker,
    line: &[u8],
    files: &mut O,
    out: &mut W,
    errors: &mut E,
) -> Result<Heard, ToolFault>
    requires { W.failed out.old < 2 ^ 64 - 1 }
    ensures answered { (all : Files) → Knows (O.holds files.old) all talker (line.now ∷ [])
        → IfOk result (λ now. Answered (typed_line all talker moment.old line.now)
        moment.new now.told now.is_over (O.saved files.old) (O.saved files.new) (W.told out.old) (W.told out.new)) }
    ensures begun { (all : Files) → Knows (O.holds files.old) all talker (line.now ∷ [])
        → AppendsFront (W.told out.old) (W.told out.new) (typed_line all talker moment.old line.now).bytes }
    ensures unasked { O.asked files.new ≡ O.asked files.old }
    ensures held { O.holds files.new ≡ O.holds files.old }
    ensures write { CountsFailure (result ≡ Err ToolFault.Write) (W.failed out.old) (W.failed out.new) }
    ensures only { IfErr result IsMemoryOrWrite }
    ensures untouched { talker ≡ Talker.Program → files.new ≡ files.old }
{
    let alloc = moment.recall.allocator();
    let mut note = Vec::new(alloc);
    match act_of(talker, line) {
        Act::Answer => answer_line(moment, talker, line, out, errors),
        Act::Source => {
            let text = text_sourced(alloc, line, files, &mut note)?;
            say(&note, errors);
            answer_lines(moment, talker, &text, out, errors)
        }
        Act::Save => {
            save(moment, line, files, &mut note)?;
            moment.recall.repeat_nothing();
            say(&note, errors);
            Ok(DONE)
        }
        Act::Reload => {
            reload(moment, files, &mut note)?;
            say(&note, errors);
            Ok(DONE)
        }
    }
}

/// The lines of a text, each before the next, up to the one that ends the talk; a person is prompted after each.
pub(super) fn answer_text<O: Opener, W: Out, E: Out>(
    moment: &mut Moment,
    talker: Talker,
    text: &[u8],
    files: &mut O,
    out: &mut W,
    errors: &mut E,
) -> Result<Heard, ToolFault>
    requires { W.failed out.old < 2 ^ 64 - 1 }
    ensures answered { (all : Files) → Knows (O.holds files.old) all talker (lines text.now)
        → IfOk result (λ now. Answered (talk_of all moment.old talker (lines text.now))
        moment.new now.told now.is_over (O.saved files.old) (O.saved files.new) (W.told out.old) (W.told out.new)) }
    ensures begun { (all : Files) → Knows (O.holds files.old) all talker (lines text.now)
        → AppendsFront (W.told out.old) (W.told out.new) (talk_of all moment.old talker (lines text.now)).bytes }
    ensures unasked { O.asked files.new ≡ O.asked files.old }
    ensures held { O.holds files.new ≡ O.holds files.old }
    ensures write { CountsFailure (result ≡ Err ToolFault.Write) (W.failed out.old) (W.failed out.new) }
    ensures only { IfErr result IsMemoryOrWrite }
    ensures untouched { talker ≡ Talker.Program → files.new ≡ files.old }
{
    let mut told = Told::Accepted;
    let mut rest = text;
    while !rest.is_empty() {
        let (line, after) = split_line(rest);
        let now = answer_typed(moment, talker, line, files, out, errors)?;
        told = told.and(now.told);
        if now.is_over {
            return Ok(Heard {
                told,
                is_over: true,
            });
        }
        prompt(talker, false, errors);
        rest = after;
    }
    Ok(Heard {
        told,
        is_over: false,
    })
}
