//! Transitions of directory entries: begun, answered blade by blade, ended.

ghost use Rattle.std.specs.Prelude.{◌≡◌, ◌≢◌, ◌↔◌, false, length, map, slice_get, All, IsNone, IsSomeAnd, IfSome, IfNone, Some};
ghost use Rattle.region_directory.specs.Directory.{IsDirectory};
ghost use Rattle.region_directory.specs.Entry.{with_busy, changed_at};
ghost use Rattle.invalidate_multicast.specs.First.{IsFirst};
ghost use Rattle.invalidate_multicast.specs.Transition.{is_number, after_answer, acknowledged, WaitsFor, is_answered, first_ended, with_first_ended};

use crate::casts::without;
use mind_base::{Range, State};
use region_directory::{Busy, Directory, Entry};

/// Begins a transition of the entry with this index.
pub fn begin(directory: &mut Directory, i: u32, busy: Busy)
    requires idle { IsSomeAnd (slice_get directory.old.entries i) (λ entry. IsNone entry.busy) }
    requires waits { busy.waiting ≢ 0 }
    ensures begun { directory.new ≡ record directory.old {
      entries = changed_at i (with_busy (Some busy)) directory.old.entries;
    } }
    ensures count { length directory.new.entries ≡ length directory.old.entries }
    ensures valid { IsDirectory directory.new }
{
    directory.set_busy(i, Some(busy));
}

/// Takes the answer of a blade to the transition with this number: no entry with that number waits
/// for the blade any more, and `count` is added to the hits of the first of them, up to the greatest
/// u32.
pub fn ack(directory: &mut Directory, number: u32, blade: u8, count: u32)
    ensures acknowledged { directory.new ≡ record directory.old {
      entries = acknowledged number blade count directory.old.entries;
    } }
    ensures answered { All (λ entry. WaitsFor number blade entry.busy → ⊥) directory.new.entries }
    ensures count { length directory.new.entries ≡ length directory.old.entries }
    ensures valid { IsDirectory directory.new }
{
    answer(directory, number, blade);
    if let Some(i) = first_with(directory, number) {
        directory.add_hits(i, count);
    }
}

/// Gives the first entry with a transition that waits for nobody its target state, ends the
/// transition, and names the entry's block and new state; None exactly where there is no such entry.
pub fn ended(directory: &mut Directory) -> Option<(Range, State)>
    ensures named { result ≡ first_ended directory.old.entries }
    ensures none { IsNone result
        ↔ All (λ entry. is_answered entry.busy ≡ false) directory.old.entries }
    ensures ended { directory.new ≡ record directory.old {
      entries = with_first_ended directory.old.entries;
    } }
    ensures count { length directory.new.entries ≡ length directory.old.entries }
    ensures valid { IsDirectory directory.new }
{
    let Some(i) = first_answered(directory) else {
        return None;
    };
    let entry = directory.entry(i);
    let Some(busy) = entry.busy else {
        unreachable!();
    };
    directory.set_state(i, busy.target);
    directory.set_busy(i, None);
    Some((entry.range, busy.target))
}

/// What the answer of a blade leaves of a transition.
fn answered(busy: Option<Busy>, number: u32, blade: u8) -> Option<Busy>
    ensures { result ≡ after_answer number blade busy }
{
    match busy {
        Some(busy) if busy.number == number => Some(Busy {
            number,
            waiting: without(busy.waiting, blade),
            target: busy.target,
            for_room: busy.for_room,
        }),
        other => other,
    }
}

/// Ends the waiting for a blade in every entry with this number.
fn answer(directory: &mut Directory, number: u32, blade: u8)
    ensures answered { directory.new ≡ record directory.old {
      entries = map (λ entry. with_busy (after_answer number blade entry.busy) entry)
          directory.old.entries;
    } }
    ensures valid { IsDirectory directory.new }
{
    let count = directory.len();
    for i in 0..count {
        let entry = directory.entry(i);
        directory.set_busy(i, answered(entry.busy, number, blade));
    }
}

fn has_number(busy: &Option<Busy>, number: u32) -> bool
    ensures { result ≡ is_number number busy.now }
{
    match busy {
        Some(busy) => busy.number == number,
        None => false,
    }
}

/// The index of the first entry with this number.
fn first_with(directory: &Directory, number: u32) -> Option<u32>
    ensures some { IfSome result (λ i. (entry : Entry)
        × IsFirst (λ e. is_number number e.busy) directory.now.entries i entry) }
    ensures none { IfNone result (All (λ e. is_number number e.busy ≡ false) directory.now.entries) }
{
    for i in 0..directory.len() {
        let entry = directory.entry(i);
        if has_number(&entry.busy, number) {
            return Some(i);
        }
    }
    None
}

fn waits_for_nobody(busy: &Option<Busy>) -> bool
    ensures { result ≡ is_answered busy.now }
{
    match busy {
        Some(busy) => busy.waiting == 0,
        None => false,
    }
}

/// The index of the first entry that waits for nobody.
fn first_answered(directory: &Directory) -> Option<u32>
    ensures some { IfSome result (λ i. (entry : Entry)
        × IsFirst (λ e. is_answered e.busy) directory.now.entries i entry) }
    ensures none { IfNone result (All (λ e. is_answered e.busy ≡ false) directory.now.entries) }
    ensures valid { IsDirectory directory.now }
{
    for i in 0..directory.len() {
        let entry = directory.entry(i);
        if waits_for_nobody(&entry.busy) {
            return Some(i);
        }
    }
    None
}
