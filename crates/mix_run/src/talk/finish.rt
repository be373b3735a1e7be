//! `finish`: the run up to where a subroutine returns.

ghost use Rattle.std.specs.Prelude.{◌≡◌, IfOk};
ghost use Rattle.mix_lines.specs.Lines.{words};
ghost use Rattle.mix_run.specs.Points.{finished, is_finish};

use mix_lines::Words;
use mix_refused::Memory;
use mix_session::Session;
use mix_word::Reg;
use std::alloc::Global;

fn is_finish(typed: &[u8]) -> bool
    ensures { result ≡ is_finish (words typed.now) }
{
    let mut words = Words::of(typed);
    match words.next() {
        None => false,
        Some(word) => words.is_end() && word.eq_ignore_ascii_case(b"finish"),
    }
}

/// The run that `finish` stands for; of another line the line itself.
#[tactic(auto, unfolding(crate::specs::Points::finished))]
pub(crate) fn finished(alloc: Global, session: &Session, typed: Vec<u8>) -> Result<Vec<u8>, Memory>
    ensures { IfOk result (λ line. line.items ≡ finished session.now typed.items) }
{
    if !is_finish(&typed) {
        return Ok(typed);
    }
    let returns = session.world().register(Reg::J).magnitude();
    let line = format!(in alloc; "run 1000000 until loc {returns}")?;
    Ok(line.into_bytes())
}
