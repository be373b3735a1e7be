//! What differs between two states of a unit, as values.

ghost use Rattle.std.specs.Prelude.{◌≡◌, ◌<◌, ◌++◌, OnOk, IfOk, Some, length};
ghost use Rattle.mix_session.specs.Altered.{if_other_block, other_blocks, if_other, unit_differences};
ghost use Rattle.mix_session.specs.Differences.{number_name, unit_difference_text};

use crate::show::unit::block_at;
use mix_machine::{Unit, are_same_words};
use std::alloc::{AllocError, Global};
use std::fmt;
use undo_core::Memory;

/// A number of a unit: the place of its next block, how many blocks and rows it has, and the time in u until which its last transfer takes.
#[derive(Clone, Copy)]
pub enum UnitNumber {
    Place,
    Blocks,
    Output,
    Until,
}

/// What of a unit differs: a block that it has before and after, by its number, or a number, before and after.
#[derive(Clone, Copy)]
pub enum UnitDifference {
    Block(u16),
    Number(UnitNumber, u64, u64),
}

impl UnitNumber {
    /// The name, as an item of `show diff` has it.
    pub fn name(self) -> &'static str
        ensures { result.now ≡ number_name self }
    {
        match self {
            UnitNumber::Place => "place",
            UnitNumber::Blocks => "blocks",
            UnitNumber::Output => "output",
            UnitNumber::Until => "until",
        }
    }
}

impl fmt::Display for UnitDifference {
    ghost output = { λ d. Some (unit_difference_text d) };

    fn fmt<W: fmt::Write>(&self, f: &mut fmt::Formatter<W>) -> fmt::Result {
        match self {
            UnitDifference::Block(number) => write!(f, " block {number}"),
            UnitDifference::Number(number, before, after) => {
                let name = number.name();
                write!(f, " {name} {before} -> {after}")
            }
        }
    }
}

/// What differs between two states of a unit, in the order of `show diff`. Only out of memory refuses it.
#[tactic(auto, using(std::proofs::Common::append_assoc), unfolding(crate::specs::Altered::unit_differences))]
pub fn unit_differences(
    alloc: Global,
    before: &Unit,
    after: &Unit,
) -> Result<Vec<UnitDifference>, Memory>
    ensures { IfOk result (λ list. list.items ≡ unit_differences before.now after.now) }
{
    let mut list = Vec::new(alloc);
    add_blocks(&mut list, before, after)?;
    let (place, then) = (u64::from(before.place()), u64::from(after.place()));
    add_number(&mut list, UnitNumber::Place, place, then)?;
    let (blocks, then) = (u64::from(before.blocks()), u64::from(after.blocks()));
    add_number(&mut list, UnitNumber::Blocks, blocks, then)?;
    let (rows, then) = (u64::from(before.rows()), u64::from(after.rows()));
    add_number(&mut list, UnitNumber::Output, rows, then)?;
    add_number(&mut list, UnitNumber::Until, before.until(), after.until())?;
    Ok(list)
}

// Appends the blocks that are there before and after with other words.
#[tactic(auto, unfolding(crate::specs::Altered::other_blocks))]
fn add_blocks(list: &mut Vec<UnitDifference>, before: &Unit, after: &Unit) -> Result<(), AllocError>
    ensures { OnOk result (list.new.items ≡ list.old.items ++ other_blocks before.now after.now) }
{
    for number in 0..before.blocks().min(after.blocks()) {
        add_block(list, before, after, number)?;
    }
    Ok(())
}

fn add_block(
    list: &mut Vec<UnitDifference>,
    before: &Unit,
    after: &Unit,
    number: u16,
) -> Result<(), AllocError>
    requires before { number < length before.now.blocks }
    requires after { number < length after.now.blocks }
    ensures { OnOk result (list.new.items ≡ list.old.items ++ if_other_block before.now after.now number) }
{
    if !are_same_words(block_at(before, number), block_at(after, number)) {
        list.push(UnitDifference::Block(number))?;
    }
    Ok(())
}

// Appends a number if it is another.
fn add_number(
    list: &mut Vec<UnitDifference>,
    number: UnitNumber,
    before: u64,
    after: u64,
) -> Result<(), AllocError>
    ensures { OnOk result (list.new.items ≡ list.old.items ++ if_other number before after) }
{
    if before != after {
        list.push(UnitDifference::Number(number, before, after))?;
    }
    Ok(())
}
