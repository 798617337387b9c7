//! One entry of the list changed.

ghost use Rattle.std.specs.Prelude.{◌≡◌, ◌+◌, ◌<◌, ◌≤◌, ◌∷◌, ◌++◌, map, insert, take, drop, vec_len, vec_capacity};
ghost use Rattle.region_directory.specs.Entry.{with_change, with_hits, changed_at};

use crate::{Busy, Entry};
use mind_base::State;

/// Puts an entry at a place, where there is memory for it.
pub fn put_at(entries: &mut Vec<Entry>, place: usize, entry: Entry)
    requires place { place ≤ vec_len entries.old }
    requires space { vec_len entries.old < vec_capacity entries.old }
    ensures entries { entries.new.items ≡ insert entries.old.items place entry }
    ensures capacity { vec_capacity entries.old ≤ vec_capacity entries.new }
{
    let _ = entries.insert(place, entry);
}

/// Puts two entries in the place of one, where there is memory for one more.
pub fn put_two(entries: &mut Vec<Entry>, i: usize, lower: Entry, upper: Entry)
    requires place { i < vec_len entries.old }
    requires space { vec_len entries.old < vec_capacity entries.old }
    ensures entries { entries.new.items
        ≡ take i entries.old.items ++ lower ∷ upper ∷ drop (i + 1) entries.old.items }
    ensures capacity { vec_capacity entries.old ≤ vec_capacity entries.new }
{
    entries[i] = lower;
    put_at(entries, i + 1, upper);
}

/// Puts one entry in the place of two.
pub fn put_one(entries: &mut Vec<Entry>, i: usize, whole: Entry)
    requires { i + 1 < vec_len entries.old }
    ensures entries { entries.new.items
        ≡ take i entries.old.items ++ whole ∷ drop (i + 2) entries.old.items }
    ensures capacity { vec_capacity entries.new ≡ vec_capacity entries.old }
{
    entries[i] = whole;
    let _ = entries.remove(i + 1);
}

/// What changes of an entry: another state, another transition or none, or hits that are added, up to
/// the greatest u32.
#[derive(Clone, Copy, Debug, PartialEq, Eq)]
pub enum Change {
    State(State),
    Busy(Option<Busy>),
    Hits(u32),
}

/// Changes one thing of an entry.
pub fn change_one(entries: &mut Vec<Entry>, i: usize, change: Change)
    requires { i < vec_len entries.old }
    ensures entries { entries.new.items ≡ changed_at i (with_change change) entries.old.items }
    ensures capacity { vec_capacity entries.new ≡ vec_capacity entries.old }
{
    let entry = &mut entries[i];
    match change {
        Change::State(state) => entry.state = state,
        Change::Busy(busy) => entry.busy = busy,
        Change::Hits(count) => entry.hits = entry.hits.saturating_add(count),
    }
}

pub fn reset_hits(entries: &mut Vec<Entry>)
    ensures entries { entries.new.items ≡ map (with_hits 0) entries.old.items }
    ensures capacity { vec_capacity entries.new ≡ vec_capacity entries.old }
{
    for i in 0..entries.len() {
        let entry = &mut entries[i];
        entry.hits = 0;
    }
}
