//! `mix/counts`: how often each instruction was executed, and how many changes conflict.

use crate::view::put_digits;
use mix_machine::Transfers;
use mix_refused::Memory;
use mix_session::{Session, Tally};
use mix_word::CELLS;
use rpc_message::{Fields, Request};
use serde_json::Value;
use std::alloc::Global;

/// The cells that were executed, in rising order, how often and how long, and the sums; and how many changes conflict, if that is asked for.
pub fn counts_view(alloc: Global, session: &Session, request: &Request) -> Result<Value, Memory> {
    let tallies = session.counts(alloc)?;
    let mut body = Fields::new(alloc);
    if request.flag("conflicts") {
        body.number("conflicts", conflicts(alloc, session)?)?;
    }
    body.list("cells", cells(alloc, tallies.cells.as_slice())?)?;
    put_tally(alloc, &mut body, tallies.all)?;
    Ok(body.done())
}

fn cells(alloc: Global, tallies: &[Tally]) -> Result<Vec<Value>, Memory> {
    let mut list = Vec::new(alloc);
    for number in 0..CELLS {
        match tallies.get(usize::from(number)) {
            Some(tally) if tally.count > 0 => {
                let mut cell = Fields::new(alloc);
                cell.number("cell", u64::from(number))?;
                put_tally(alloc, &mut cell, *tally)?;
                list.push(cell.done())?;
            }
            _ => {}
        }
    }
    Ok(list)
}

fn put_tally(alloc: Global, fields: &mut Fields, tally: Tally) -> Result<(), Memory> {
    put_digits(alloc, fields, "count", u128::from(tally.count))?;
    put_digits(alloc, fields, "time", tally.time)
}

// How many of the changes done conflict with a transfer under way.
fn conflicts(alloc: Global, session: &Session) -> Result<u64, Memory> {
    let mut moments = session.moments(alloc)?;
    let mut transfers = Transfers::none();
    let mut count: u64 = 0;
    for number in 0..session.changes().len() {
        moments.come_to(alloc, number)?;
        if let Some(change) = session.change_at(number + 1) {
            let again = change;
            if transfers.conflict(change, moments.world()).is_some() {
                count = count.saturating_add(1);
            }
            transfers.go(again, moments.world());
        }
    }
    Ok(count)
}
