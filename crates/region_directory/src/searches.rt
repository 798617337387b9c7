//! The entry of a page, and the block of a new one.

ghost use Rattle.std.specs.Prelude.{◌≡◌, ◌≤◌, ◌<◌, ℕ, count_by, position, length, IfSome};
ghost use Rattle.std.specs.List.{list_all};
ghost use Rattle.mind_base.specs.Range.{RangeView, in_range};
ghost use Rattle.region_directory.specs.Block.{is_before, are_apart, block_of};
ghost use Rattle.region_directory.specs.Entry.{largest_free, entry_place, MeetsNone};

use crate::Entry;
use crate::blocks::{block_around, comes_before, stand_apart};
use mind_base::{Page, Range};

/// How many entries come before the block.
pub fn place_for(entries: &[Entry], range: &Range) -> usize
    ensures place { result ≡ entry_place entries.now range.now }
    ensures within { result ≤ length entries.now }
{
    entries
        .iter()
        .filter(|entry| comes_before(&entry.range, range))
        .count()
}

fn is_free(entries: &[Entry], range: &Range) -> bool
    ensures { result ≡ list_all (λ entry. are_apart entry.range range.now) entries.now }
{
    entries.iter().all(|entry| stand_apart(&entry.range, range))
}

/// The largest block with the page, of at most 2^`log` pages, that shares no page with an entry.
pub fn largest_free(entries: &[Entry], page: &Page, log: u8) -> Range
    requires { log ≤ 9 }
    ensures new { result ≡ largest_free entries.now page.now log }
    ensures block { result ≡ block_of page.now result.log }
    ensures size { result.log ≤ log }
    ensures free { 0 < result.log → MeetsNone entries.now result }
    ensures largest { (k : ℕ) → result.log < k → k ≤ log → MeetsNone entries.now (block_of page.now k) → ⊥ }
{
    let mut size = log;
    while size > 0 {
        let block = block_around(page, size);
        if is_free(entries, &block) {
            return block;
        }
        size -= 1;
    }
    block_around(page, 0)
}
