//! The entry that is made of two.

ghost use Rattle.std.specs.Prelude.{◌≡◌, ◌<◌, ◌+◌, ◌%◌, ◌^◌, length, slice_get, IsSome, IfSome};
ghost use Rattle.region_directory.specs.Merge.{are_halves, doubled, has_only, merged_state, merged_entry, merged_pair};

use crate::Entry;
use mind_base::{Range, State};

/// Whether these blocks are the halves of one, the lower half first.
fn are_halves(lower: &Range, upper: &Range) -> bool
    ensures { result ≡ are_halves lower.now upper.now }
{
    let pages: u32 = 1 << lower.log;
    let both: u32 = 1 << (lower.log + 1);
    lower.domain == upper.domain
        && lower.log == upper.log
        && lower.base % both == 0
        && upper.base == lower.base + pages
}

/// The block of twice the size from the same page on.
fn doubled(range: &Range) -> Range
    requires size { range.now.log < 9 }
    requires start { range.now.base % 2 ^ (range.now.log + 1) ≡ 0 }
    ensures { result ≡ doubled range.now }
{
    Range {
        domain: range.domain,
        base: range.base,
        log: range.log + 1,
    }
}

/// Whether the set has no blade but perhaps the owner.
fn has_only(owner: u8, sharers: u8) -> bool
    ensures { result ≡ has_only owner sharers }
{
    sharers == 0 || (owner < 8 && sharers == 1 << owner)
}

/// The state of an entry of both blocks, where one is shared.
fn shared_with(sharers: u8, state: State) -> Option<State>
    ensures { result ≡ merged_state (State.S sharers) state }
{
    match state {
        State::I => Some(State::S { sharers }),
        State::S { sharers: others } => Some(State::S {
            sharers: sharers | others,
        }),
        State::M { owner } => {
            if has_only(owner, sharers) {
                Some(State::M { owner })
            } else {
                None
            }
        }
    }
}

/// The state of an entry of both blocks, where one has an owner.
fn owned_with(owner: u8, state: State) -> Option<State>
    ensures { result ≡ merged_state (State.M owner) state }
{
    match state {
        State::I => Some(State::M { owner }),
        State::S { sharers: others } => {
            if has_only(owner, others) {
                Some(State::M { owner })
            } else {
                None
            }
        }
        State::M { owner: other } => {
            if owner == other {
                Some(State::M { owner })
            } else {
                None
            }
        }
    }
}

/// The state of an entry of both blocks: M if either is, else S with the sharers of both, else I. None
/// where both name blades, unless both are S, or one is M and the other names its owner alone.
fn merged_state(lower: State, upper: State) -> Option<State>
    ensures { result ≡ merged_state lower upper }
{
    match lower {
        State::I => Some(upper),
        State::S { sharers } => shared_with(sharers, upper),
        State::M { owner } => owned_with(owner, upper),
    }
}

/// What two entries become; None where they may not become one.
fn merged_entry(most: u8, lower: &Entry, upper: &Entry) -> Option<Entry>
    ensures { result ≡ merged_entry most lower.now upper.now }
{
    let together = are_halves(&lower.range, &upper.range)
        && lower.range.log < most.min(9)
        && lower.busy.is_none()
        && upper.busy.is_none();
    if !together {
        return None;
    }
    match merged_state(lower.state, upper.state) {
        Some(state) => Some(Entry {
            range: doubled(&lower.range),
            state,
            busy: None,
            hits: lower.hits.saturating_add(upper.hits),
        }),
        None => None,
    }
}

/// What entry `i` and the next one become; None where they may not become one, or there is no next one.
pub fn merged_pair(most: u8, entries: &[Entry], i: usize) -> Option<Entry>
    requires { i < length entries.now }
    ensures pair { result ≡ merged_pair most entries.now i }
    ensures next { IsSome result → i + 1 < length entries.now }
{
    if i + 1 == entries.len() {
        return None;
    }
    merged_entry(most, &entries[i], &entries[i + 1])
}
