//! What is watched: of each line that asks for it, what follows its number of steps.

ghost use Rattle.std.specs.Prelude.{◌≡◌, OnOk};
ghost use Rattle.mix_person.specs.Person.{condition_in, watched_in};
ghost use Rattle.mix_run.specs.Recall.{watched_after};

use mix_refused::Memory;

const RUN_LEN: usize = 11;

const UNTIL_LEN: usize = 17;

// What is watched, of a line that runs until it: from its `until` on.
fn watched_in(line: &[u8]) -> &[u8]
    ensures { result.now ≡ watched_in line.now }
{
    &line[RUN_LEN.min(line.len())..]
}

// The same from what follows `until` on.
fn condition_in(line: &[u8]) -> &[u8]
    ensures { result.now ≡ condition_in line.now }
{
    &line[UNTIL_LEN.min(line.len())..]
}

/// What is watched, from what follows `until` on.
pub(crate) fn condition_watched(watch: &[u8]) -> &[u8] {
    &watch[(UNTIL_LEN - RUN_LEN).min(watch.len())..]
}

/// Appends what a line asks for to what is watched: after the word `or`, where something is.
pub(crate) fn put_watched(watch: &mut Vec<u8>, line: &[u8]) -> Result<(), Memory>
    ensures { OnOk result (watch.new.items ≡ watched_after watch.old.items line.now) }
{
    match watch.split_first() {
        None => watch.extend_from_slice(watched_in(line))?,
        Some(_) => {
            watch.extend_from_slice(b" or")?;
            watch.extend_from_slice(condition_in(line))?;
        }
    }
    Ok(())
}
