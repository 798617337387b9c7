//! The two entries that are made of one.

ghost use Rattle.std.specs.Prelude.{◌≡◌};
ghost use Rattle.region_directory.specs.Split.{half_entry, split_entry};

use crate::Entry;
use mind_base::Range;

/// An entry for one half of an entry's block.
fn half_entry(entry: &Entry, range: Range) -> Entry
    ensures { result ≡ half_entry entry.now range }
{
    Entry {
        range,
        state: entry.state,
        busy: entry.busy,
        hits: 0,
    }
}

/// The entries for the two halves of an entry's block, the lower one first; None exactly for one page.
pub fn split_entry(entry: &Entry) -> Option<(Entry, Entry)>
    ensures { result ≡ split_entry entry.now }
{
    match entry.range.halves() {
        Some((lower, upper)) => Some((half_entry(entry, lower), half_entry(entry, upper))),
        None => None,
    }
}
