//! The directory: entries of blocks, in order and apart.

ghost use Rattle.std.specs.Prelude.{◌≡◌, ◌↔◌, ◌+◌, ◌-◌, ◌*◌, ◌^◌, ◌<◌, ◌≤◌, ◌⊎◌, ℕ, [], length, map, insert, remove, position, slice_get, Some, IsTrue, IsNone, IsSomeAnd, is_some, option_map, IfSome, IfOk, false};
ghost use Rattle.mind_base.specs.Range.{RangeView, IsRange, InRange, in_range};
ghost use Rattle.region_directory.specs.Entry.{HasPage, NoneHas, MeetsNone, largest_free, entry_place, fresh_entry, in_state, with_busy, with_change, with_hits, plus_hits};
ghost use Rattle.region_directory.specs.Directory.{ChangesEntry, DirectoryView, IsDirectory};
ghost use Rattle.region_directory.specs.Merge.{merge_of, with_merge};
ghost use Rattle.region_directory.specs.Room.{room_of, MustWait};
ghost use Rattle.region_directory.specs.Side.{where_lies};
ghost use Rattle.region_directory.specs.Split.{split_of, with_split};

use crate::changes::{Change, change_one, put_at, put_one, put_two, reset_hits};
use crate::merges::merged_pair;
use crate::rooms::room_among;
use crate::searches::{largest_free, place_for};
use crate::sides::side_of;
use crate::splits::split_entry;
use crate::{Busy, Entry, Room, Steps, Where};
use mind_base::{NoMemory, Page, Range, State};
use std::alloc::Global;
use std::marker::Model;

/// The directory: a list of entries by domain and first page, no two of which share a page, and at
/// most as many as there are slots. All its memory is taken when it is made.
#[derive(Drop)]
pub struct Directory {
    slots: u32,
    most: u8,
    entries: Vec<Entry>,
}

impl Model for Directory {
    ghost use Rattle.std.specs.Prelude.{◌≤◌, vec_capacity};
    ghost use Rattle.region_directory.specs.Directory.{DirectoryView, IsDirectory};

    ghost Value = { DirectoryView };

    ghost view = { λ d. record { slots = d.slots; most = d.most; entries = d.entries.items } };

    ghost invariant = { λ d. (d.slots ≤ vec_capacity d.entries) × IsDirectory (record { slots = d.slots; most = d.most; entries = d.entries.items }) };
}

impl Directory {
    /// An empty directory of `slots` entries. It has the memory for all of them, so no other call
    /// takes any. `most` is the logarithm of the most pages that a merged block may have.
    pub fn new(alloc: Global, slots: u32, most: u8) -> Result<Directory, NoMemory>
        ensures made { IfOk result (λ d. d ≡ record { slots = slots; most = most; entries = [] }) }
        ensures valid { IfOk result IsDirectory }
    {
        let entries = Vec::with_capacity(alloc, slots as usize)?;
        Ok(Directory {
            slots,
            most,
            entries,
        })
    }

    /// How many entries there are.
    pub fn len(&self) -> u32
        ensures len { result ≡ length self.now.entries }
        ensures valid { IsDirectory self.now }
    {
        self.entries.len() as u32
    }

    /// Whether there is no entry.
    pub fn is_empty(&self) -> bool
        ensures empty { IsTrue result ↔ (self.now.entries ≡ []) }
        ensures valid { IsDirectory self.now }
    {
        self.entries.is_empty()
    }

    /// How many entries there may be.
    pub fn slots(&self) -> u32
        ensures slots { result ≡ self.now.slots }
        ensures valid { IsDirectory self.now }
    {
        self.slots
    }

    /// Whether every slot has an entry.
    pub fn is_full(&self) -> bool
        ensures full { IsTrue result ↔ (length self.now.entries ≡ self.now.slots) }
        ensures valid { IsDirectory self.now }
    {
        self.entries.len() == self.slots as usize
    }

    /// The index of the entry that has the page; None exactly where no entry has it.
    pub fn find(&self, page: Page) -> Option<u32>
        ensures first { result ≡ position (λ entry. in_range entry.range page) self.now.entries }
        ensures found { IfSome result (λ i. HasPage self.now.entries i page) }
        ensures only { IfSome result
            (λ i. (k : ℕ) → HasPage self.now.entries k page → k ≡ i) }
        ensures none { IsNone result ↔ NoneHas self.now.entries page }
        ensures valid { IsDirectory self.now }
    {
        let mut steps = Steps::new();
        self.find_counted(page, &mut steps)
    }

    /// As `find`, with the look-ups of entries counted: with n entries at most log2(2n + 1) more.
    pub fn find_counted(&self, page: Page, steps: &mut Steps) -> Option<u32>
        requires { steps.old < 2 ^ 63 }
        ensures first { result ≡ position (λ entry. in_range entry.range page) self.now.entries }
        ensures found { IfSome result (λ i. HasPage self.now.entries i page) }
        ensures none { IsNone result ↔ NoneHas self.now.entries page }
        ensures counted { steps.old ≤ steps.new }
        ensures few { 2 ^ (steps.new - steps.old) ≤ 2 * length self.now.entries + 1 }
        ensures valid { IsDirectory self.now }
    {
        let mut low = 0;
        let mut high = self.len();
        while low < high {
            let middle = low + (high - low) / 2;
            match self.probe(middle, page, steps) {
                Where::Before => high = middle,
                Where::Inside => return Some(middle),
                Where::After => low = middle + 1,
            }
        }
        None
    }

    /// Where the page lies, seen from the block of the entry with this index: one step.
    pub fn probe(&self, i: u32, page: Page, steps: &mut Steps) -> Where
        requires within { i < length self.now.entries }
        requires counts { steps.old < 2 ^ 63 + 64 }
        ensures side { IsSomeAnd (slice_get self.now.entries i)
            (λ entry. result ≡ where_lies entry.range page) }
        ensures counted { steps.new ≡ steps.old + 1 }
        ensures valid { IsDirectory self.now }
    {
        steps.tick();
        side_of(&self.entries[i as usize].range, &page)
    }

    /// The entry with this index.
    pub fn entry(&self, i: u32) -> Entry
        requires { i < length self.now.entries }
        ensures entry { slice_get self.now.entries i ≡ Some result }
        ensures valid { IsDirectory self.now }
    {
        self.entries[i as usize]
    }

    /// How many entries come before the block: the index that its entry gets.
    pub fn place(&self, range: &Range) -> u32
        ensures place { result ≡ entry_place self.now.entries range.now }
        ensures within { result ≤ length self.now.entries }
    {
        place_for(self.entries.as_slice(), range) as u32
    }

    /// The largest aligned block with the page, of at most 2^`log` pages, that shares no page with an
    /// entry.
    pub fn new_range(&self, page: Page, log: u8) -> Range
        requires unknown { NoneHas self.now.entries page }
        requires size { log ≤ 9 }
        ensures new { result ≡ largest_free self.now.entries page log }
        ensures has { InRange result page }
        ensures block { IsRange result.domain result.base result.log }
        ensures size { result.log ≤ log }
        ensures free { MeetsNone self.now.entries result }
        ensures largest { (other : RangeView) → IsRange other.domain other.base other.log
            → InRange other page → other.log ≤ log → MeetsNone self.now.entries other
            → other.log ≤ result.log }
        ensures valid { IsDirectory self.now }
    {
        largest_free(self.entries.as_slice(), &page, log)
    }

    /// What makes room in a full directory, while these pages are being fetched.
    pub fn room(&self, fetching: &[Page]) -> Room
        requires { length self.now.entries ≡ self.now.slots }
        ensures room { result ≡ room_of self.now fetching.now }
        ensures waits { (result ≡ Room.Wait) ↔ MustWait self.now fetching.now }
        ensures valid { IsDirectory self.now }
    {
        room_among(self.entries.as_slice(), fetching)
    }

    /// Puts an entry for the block at its place: in state I, with no transition and no hits.
    pub fn insert(&mut self, range: Range)
        requires space { length self.old.entries < self.old.slots }
        requires free { MeetsNone self.old.entries range }
        ensures inserted { self.new ≡ record self.old {
          entries = insert self.old.entries (entry_place self.old.entries range) (fresh_entry range);
        } }
        ensures count { length self.new.entries ≡ length self.old.entries + 1 }
        ensures valid { IsDirectory self.new }
    {
        // A block's bounds are known where it is read.
        let _ = &range.log;
        let place = place_for(self.entries.as_slice(), &range);
        put_at(
            &mut self.entries,
            place,
            Entry {
                range,
                state: State::I,
                busy: None,
                hits: 0,
            },
        );
    }

    /// Drops the entry with this index.
    pub fn remove(&mut self, i: u32)
        requires { i < length self.old.entries }
        ensures removed { self.new ≡ record self.old { entries = remove self.old.entries i } }
        ensures count { length self.new.entries + 1 ≡ length self.old.entries }
        ensures valid { IsDirectory self.new }
    {
        let _ = self.entries.remove(i as usize);
    }

    /// Puts an entry for each half of the block in the place of the entry with this index: both in its
    /// state and in its transition, if one is under way, and with no hits. False, and nothing changes,
    /// exactly where every slot has an entry or the block is one page.
    pub fn split(&mut self, i: u32) -> bool
        requires { i < length self.old.entries }
        ensures split { result ≡ is_some (split_of self.old i) }
        ensures none { (result ≡ false) ↔ ((length self.old.entries ≡ self.old.slots)
            ⊎ IsSomeAnd (slice_get self.old.entries i) (λ entry. entry.range.log ≡ 0)) }
        ensures changed { self.new ≡ record self.old {
          entries = with_split i (split_of self.old i) self.old.entries;
        } }
        ensures valid { IsDirectory self.new }
    {
        if self.entries.len() == self.slots as usize {
            return false;
        }
        let i = i as usize;
        let Some((lower, upper)) = split_entry(&self.entries[i]) else {
            return false;
        };
        put_two(&mut self.entries, i, lower, upper);
        true
    }

    /// Whether the entry with this index and the next one may become one. They are the halves of one
    /// block of at most 2^`most` pages, neither has a transition, and not both name blades, unless
    /// both are S, or one is M and the other names its owner alone.
    pub fn mergeable(&self, i: u32) -> bool
        requires { i < length self.now.entries }
        ensures { result ≡ is_some (merge_of self.now i) }
    {
        merged_pair(self.most, self.entries.as_slice(), i as usize).is_some()
    }

    /// Makes one entry of the entry with this index and the next one, and gives its block: in M if
    /// either was, else in S with the sharers of both, else in I; the hits are added, up to the
    /// greatest u32. None, and nothing changes, exactly where they may not become one.
    pub fn merge(&mut self, i: u32) -> Option<Range>
        requires { i < length self.old.entries }
        ensures block { result ≡ option_map (λ whole. whole.range) (merge_of self.old i) }
        ensures changed { self.new ≡ record self.old {
          entries = with_merge i (merge_of self.old i) self.old.entries;
        } }
        ensures valid { IsDirectory self.new }
    {
        let i = i as usize;
        let Some(whole) = merged_pair(self.most, self.entries.as_slice(), i) else {
            return None;
        };
        let range = whole.range;
        put_one(&mut self.entries, i, whole);
        Some(range)
    }

    /// Gives the entry with this index another state.
    pub fn set_state(&mut self, i: u32, state: State)
        requires { i < length self.old.entries }
        ensures { ChangesEntry i (in_state state) self.old self.new }
    {
        self.change(i, Change::State(state));
    }

    /// Gives the entry with this index another transition, or none.
    pub fn set_busy(&mut self, i: u32, busy: Option<Busy>)
        requires { i < length self.old.entries }
        ensures { ChangesEntry i (with_busy busy) self.old self.new }
    {
        self.change(i, Change::Busy(busy));
    }

    /// Adds to the hits of the entry with this index, up to the greatest u32.
    pub fn add_hits(&mut self, i: u32, count: u32)
        requires { i < length self.old.entries }
        ensures { ChangesEntry i (plus_hits count) self.old self.new }
    {
        self.change(i, Change::Hits(count));
    }

    /// Changes one thing of the entry with this index.
    fn change(&mut self, i: u32, change: Change)
        requires { i < length self.old.entries }
        ensures { ChangesEntry i (with_change change) self.old self.new }
    {
        change_one(&mut self.entries, i as usize, change);
    }

    /// Makes the hits of every entry 0.
    pub fn clear_hits(&mut self)
        ensures cleared { self.new ≡ record self.old {
          entries = map (with_hits 0) self.old.entries;
        } }
        ensures count { length self.new.entries ≡ length self.old.entries }
        ensures valid { IsDirectory self.new }
    {
        reset_hits(&mut self.entries);
    }
}
