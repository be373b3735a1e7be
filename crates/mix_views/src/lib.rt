//! What a person sees of a session beside what a script shows: nodes of linked memory, passages of a line, the counts of the book, the map.
#![tactic(auto)]

mod analysis;
mod map;

ghost use Rattle.std.specs.Prelude.{◌≡◌, IfOk, is_some};
ghost use Rattle.mix_lines.specs.Lines.{words};
ghost use Rattle.mix_views.specs.View.{is_nodes, is_view, is_view_named};

use crate::map::map_text;
pub use analysis::{analysis_asked, rows_in};
use mix_formula::analysis_text;
use mix_lines::{Words, next_word};
use mix_machine::{Sign, Word};
use mix_nodes::{Graph, graph_of, nodes_text, read_shape};
use mix_passages::{passages_text, read_passages};
use mix_refused::Memory;
use mix_session::Session;
use std::alloc::Global;

/// What a line `show nodes ..`, `show passages ..`, `show analysis ..` or `show map` says (2.2.3, 1.2.1, 1.3.2); none for any other line, and for one
/// whose words say nothing. Only out of memory refuses it.
#[tactic(auto, unfolding(crate::specs::View::is_view))]
pub fn view_of(alloc: Global, session: &Session, typed: &[u8]) -> Result<Option<Vec<u8>>, Memory>
    ensures { IfOk result (λ said. is_some said ≡ is_view session.now (words typed.now)) }
{
    let Some((command, rest)) = next_word(typed) else {
        return Ok(None);
    };
    let Some((name, rest)) = next_word(rest) else {
        return Ok(None);
    };
    if command.eq_ignore_ascii_case(b"show") {
        view_named(alloc, session, name, rest)
    } else {
        Ok(None)
    }
}

fn view_named<'a>(
    alloc: Global,
    session: &'a Session,
    name: &[u8],
    rest: &'a [u8],
) -> Result<Option<Vec<u8>>, Memory>
    ensures { IfOk result (λ said. is_some said ≡ is_view_named session.now name.now (words rest.now)) }
{
    let mut words = Words::of(rest);
    if name.eq_ignore_ascii_case(b"nodes") {
        match nodes_asked(alloc, session, &mut words)? {
            None => Ok(None),
            Some(graph) => Ok(Some(nodes_text(alloc, &graph)?)),
        }
    } else if name.eq_ignore_ascii_case(b"passages") {
        match read_passages(alloc, session, rest)? {
            None => Ok(None),
            Some(asked) => Ok(Some(passages_text(alloc, session, &asked)?)),
        }
    } else if name.eq_ignore_ascii_case(b"analysis") {
        match analysis_asked(alloc, session, &mut words)? {
            None => Ok(None),
            Some(analysis) => Ok(Some(analysis_text(alloc, &analysis)?)),
        }
    } else if name.eq_ignore_ascii_case(b"map") && words.is_end() {
        Ok(Some(map_text(alloc, session)?))
    } else {
        Ok(None)
    }
}

/// The nodes that some words ask for (2.2.3); none where these say nothing. Only out of memory refuses it.
pub fn nodes_asked(
    alloc: Global,
    session: &Session,
    words: &mut Words,
) -> Result<Option<Graph>, Memory>
    ensures { IfOk result (λ said. is_some said ≡ is_nodes session.now words.old) }
{
    let world = session.world();
    let here = Word::of(Sign::Plus, u32::from(world.loc()));
    match read_shape(alloc, words, session.program(), here)? {
        None => Ok(None),
        Some(shape) => Ok(Some(graph_of(alloc, world, &shape)?)),
    }
}
