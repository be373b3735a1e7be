//! A list in which equal items that follow each other are kept once, with their number.
ghost use Rattle.std.specs.Prelude.{◌≡◌, ◌+◌, ◌-◌, ◌<◌, ◌≤◌, ◌^◌, ◌++◌, length, replicate, take, get_or, vec_len, vec_capacity, IsTrue};
ghost use Rattle.undo_core.specs.Runs.{items_of, IsRising, end_of};

/// An item that is repeated, and how many items there are up to the end of the repetition.
#[derive(Clone, Copy)]
pub(crate) struct Run<T: Copy> {
    pub(crate) item: T,
    pub(crate) end: usize,
}

/// How many items the runs have.
#[inline(always)]
pub(crate) fn count_in<T: Copy>(runs: &[Run<T>]) -> usize
    requires { IsRising 0 runs.now }
    ensures end { result ≡ end_of 0 runs.now }
    ensures count { result ≡ length (items_of 0 runs.now) }
{
    let count = runs.len();
    if count == 0 { 0 } else { runs[count - 1].end }
}

/// The item of this number, counted from 0. It takes as many steps as the number of runs has binary digits.
pub(crate) fn item_at<T: Copy>(runs: &[Run<T>], number: usize) -> T
    requires rising { IsRising 0 runs.now }
    requires within { number < length (items_of 0 runs.now) }
    ensures { result ≡ get_or (items_of 0 runs.now) number result }
{
    runs[run_at(runs, number)].item
}

// The run in which the item of this number stands.
fn run_at<T: Copy>(runs: &[Run<T>], number: usize) -> usize
    requires rising { IsRising 0 runs.now }
    requires within { number < length (items_of 0 runs.now) }
    ensures within { result < length runs.now }
    ensures before { end_of 0 (take result runs.now) ≤ number }
    ensures end { number < end_of 0 (take (result + 1) runs.now) }
{
    let mut low = 0;
    let mut high = runs.len();
    while low < high {
        let middle = low + (high - low) / 2;
        if runs[middle].end <= number {
            low = middle + 1;
        } else {
            high = middle;
        }
    }
    low
}

/// Keeps the first `count` items and drops the others.
pub(crate) fn cut<T: Copy>(runs: &mut Vec<Run<T>>, count: usize)
    requires rising { IsRising 0 runs.old.items }
    requires within { count < length (items_of 0 runs.old.items) }
    ensures rising { IsRising 0 runs.new.items }
    ensures items { items_of 0 runs.new.items ≡ take count (items_of 0 runs.old.items) }
    ensures shorter { vec_len runs.new ≤ vec_len runs.old }
    ensures room { vec_capacity runs.new ≡ vec_capacity runs.old }
{
    if count == 0 {
        runs.clear();
        return;
    }
    let last = run_at(runs, count - 1);
    runs.truncate(last + 1);
    runs[last].end = count;
}

/// Appends an item, which is the same as the last one, so many times.
#[inline(always)]
pub(crate) fn lengthen<T: Copy>(runs: &mut Vec<Run<T>>, item: T, many: usize)
    requires rising { IsRising 0 runs.old.items }
    requires some { 0 < vec_len runs.old }
    requires same { (get_or runs.old.items (vec_len runs.old - 1) (record { item = item; end = 0 })).item ≡ item }
    requires few { length (items_of 0 runs.old.items) + many < 2 ^ 64 }
    ensures rising { IsRising 0 runs.new.items }
    ensures items { items_of 0 runs.new.items ≡ items_of 0 runs.old.items ++ replicate many item }
{
    let last = runs.len() - 1;
    runs[last].end += many;
}

/// Appends an item so many times. There is room for it.
#[inline(always)]
pub(crate) fn append<T: Copy>(runs: &mut Vec<Run<T>>, item: T, many: usize)
    requires rising { IsRising 0 runs.old.items }
    requires room { vec_len runs.old < vec_capacity runs.old }
    requires few { length (items_of 0 runs.old.items) + many < 2 ^ 64 }
    ensures rising { IsRising 0 runs.new.items }
    ensures items { items_of 0 runs.new.items ≡ items_of 0 runs.old.items ++ replicate many item }
{
    let end = count_in(runs) + many;
    runs.push_reserved(Run { item, end });
}
