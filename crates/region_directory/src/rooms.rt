//! How room is made for an entry.

ghost use Rattle.std.specs.Prelude.{◌≡◌, ◌<◌, ◌≤◌, ◌^◌, length, position, IfSome};
ghost use Rattle.std.specs.List.{list_any};
ghost use Rattle.mind_base.specs.Range.{in_range};
ghost use Rattle.region_directory.specs.Room.{is_droppable, is_for_room, is_evictable, first_rule};

use crate::Entry;
use mind_base::{Page, Range, State};

/// How a full directory makes room: the entry with this index is dropped; it and the next one are
/// merged; all holders of this entry's pages give them up; or the request waits.
#[derive(Clone, Copy, Debug, PartialEq, Eq)]
pub enum Room {
    Drop { index: u32 },
    Merge { index: u32 },
    Evict { index: u32 },
    Wait,
}

fn can_drop(entry: &Entry) -> bool
    ensures { result ≡ is_droppable entry.now }
{
    matches!(entry.state, State::I) && entry.busy.is_none()
}

fn makes_room(entry: &Entry) -> bool
    ensures { result ≡ is_for_room entry.now.busy }
{
    match entry.busy {
        Some(busy) => busy.for_room,
        None => false,
    }
}

/// Whether one of the pages is in the block.
pub fn has_any(range: &Range, pages: &[Page]) -> bool
    ensures { result ≡ list_any (in_range range.now) pages.now }
{
    pages.iter().any(|page| range.has(*page))
}

fn can_evict(fetching: &[Page], entry: &Entry) -> bool
    ensures { result ≡ is_evictable fetching.now entry.now }
{
    entry.busy.is_none() && !has_any(&entry.range, fetching)
}

fn first_droppable(entries: &[Entry]) -> Option<usize>
    ensures first { result ≡ position is_droppable entries.now }
    ensures within { IfSome result (λ i. i < length entries.now) }
{
    entries.iter().position(|entry| can_drop(entry))
}

fn is_clearing(entries: &[Entry]) -> bool
    ensures { result ≡ list_any (λ entry. is_for_room entry.busy) entries.now }
{
    entries.iter().any(|entry| makes_room(entry))
}

fn first_evictable(entries: &[Entry], fetching: &[Page]) -> Option<usize>
    ensures first { result ≡ position (is_evictable fetching.now) entries.now }
    ensures within { IfSome result (λ i. i < length entries.now) }
{
    entries.iter().position(|entry| can_evict(fetching, entry))
}

/// What makes room among these entries while these pages are being fetched.
pub fn room_among(entries: &[Entry], fetching: &[Page]) -> Room
    requires { length entries.now < 2 ^ 32 }
    ensures { result ≡ first_rule (position is_droppable entries.now)
        (list_any (λ entry. is_for_room entry.busy) entries.now)
        (position (is_evictable fetching.now) entries.now) }
{
    if let Some(index) = first_droppable(entries) {
        let index = index as u32;
        return Room::Drop { index };
    }
    if is_clearing(entries) {
        return Room::Wait;
    }
    let Some(index) = first_evictable(entries, fetching) else {
        return Room::Wait;
    };
    let index = index as u32;
    Room::Evict { index }
}
