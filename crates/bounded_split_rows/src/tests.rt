//! Epochs over small directories, by rows.

ghost use Rattle.std.specs.Prelude.{◌≡◌};
ghost use Rattle.bounded_split.specs.Verdict.{verdict_of};

use bounded_split::{EpochSums, Load, Policy, Verdict, epoch};
use mind_base::{Log, Note, Page, State};
use region_directory::{Busy, Directory};
use std::test::Fail;

/// The verdict of the policy with a threshold.
fn verdict_by(threshold: u32, load: Load) -> Verdict
    ensures { result ≡ verdict_of threshold load }
{
    if load.log > 0 && load.hits > threshold {
        Verdict::Split
    } else if load.hits == 0 {
        Verdict::Cold
    } else {
        Verdict::Keep
    }
}

/// Makes an entry for the block with this page, where it is free, with these hits.
fn put(directory: &mut Directory, number: u32, log: u8, hits: u32) {
    if number >= 1 << 20 || log > 9 {
        return;
    }
    let page = Page { domain: 0, number };
    if directory.is_full() || directory.find(page).is_some() {
        return;
    }
    let range = directory.new_range(page, log);
    directory.insert(range);
    if let Some(i) = directory.find(page) {
        directory.add_hits(i, hits);
    }
}

/// The first page and size of the block of entry `i`.
fn block(directory: &Directory, i: u32) -> Option<(u32, u8)> {
    if i >= directory.len() {
        return None;
    }
    let range = directory.entry(i).range;
    Some((range.base, range.log))
}

/// The kind of note `i` of the log, `j` for a merge and `s` for a split, with the block's first page and size.
fn noted(log: &Log, i: usize) -> Option<(char, u32, u8)> {
    if i >= log.len() {
        return None;
    }
    match log.get(i) {
        Note::Merge { range } => Some(('j', range.base, range.log)),
        Note::Split { range } => Some(('s', range.base, range.log)),
        _ => None,
    }
}

fn sums_of(merges: u32, splits: u32, hits: u64) -> EpochSums
    ensures { result ≡ record { merges = merges; splits = splits; hits = hits } }
{
    EpochSums {
        merges,
        splits,
        hits,
    }
}

#[test]
fn merges_cold_neighbours_once_and_then_splits(rt: HostRuntime) -> Result<(), Fail> {
    let policy = Policy::new(4, Box::new(rt.alloc(), |load: Load| verdict_by(4, load))?);
    let mut log = Log::new(rt.alloc());
    let mut directory = Directory::new(rt.alloc(), 7, 2)?;
    for (number, size, hits) in [
        (0, 0, 0),
        (1, 0, 0),
        (2, 0, 0),
        (3, 0, 0),
        (8, 1, 5),
        (10, 1, 4),
        (12, 1, 6),
    ] {
        put(&mut directory, number, size, hits);
    }
    let sums = epoch(&mut directory, &policy, &mut log)?;
    assert_eq!(rt; sums, sums_of(2, 2, 15));
    let notes = [('j', 0, 1), ('j', 2, 1), ('s', 8, 1), ('s', 12, 1)];
    for (i, note) in notes.iter().enumerate() {
        assert_eq!(rt; noted(&log, i), Some(*note));
    }
    assert_eq!(rt; log.len(), 4);
    let blocks = [(0, 1), (2, 1), (8, 0), (9, 0), (10, 1), (12, 0), (13, 0)];
    for (i, whole) in blocks.iter().enumerate() {
        assert_eq!(rt; block(&directory, i as u32), Some(*whole));
    }
    let sums = epoch(&mut directory, &policy, &mut log)?;
    assert_eq!(rt; sums, sums_of(3, 0, 0));
    assert_eq!(rt; noted(&log, 4), Some(('j', 0, 2)));
    assert_eq!(rt; noted(&log, 5), Some(('j', 8, 1)));
    Ok(())
}

#[test]
fn splits_while_a_slot_is_free(rt: HostRuntime) -> Result<(), Fail> {
    let policy = Policy::new(4, Box::new(rt.alloc(), |load: Load| verdict_by(4, load))?);
    let mut log = Log::new(rt.alloc());
    let mut directory = Directory::new(rt.alloc(), 3, 9)?;
    put(&mut directory, 0, 1, 5);
    put(&mut directory, 2, 1, 4_294_967_295);
    let sums = epoch(&mut directory, &policy, &mut log)?;
    assert_eq!(rt; sums, sums_of(0, 1, 4_294_967_300));
    assert_eq!(rt; noted(&log, 0), Some(('s', 0, 1)));
    assert_eq!(rt;
        (block(&directory, 1), block(&directory, 2)),
        (Some((1, 0)), Some((2, 1)))
    );
    Ok(())
}

#[test]
fn splits_a_busy_entry_in_its_transition(rt: HostRuntime) -> Result<(), Fail> {
    let policy = Policy::new(0, Box::new(rt.alloc(), |load: Load| verdict_by(0, load))?);
    let mut log = Log::new(rt.alloc());
    let mut directory = Directory::new(rt.alloc(), 8, 9)?;
    put(&mut directory, 2, 1, 1);
    let state = State::M { owner: 1 };
    let busy = Busy {
        number: 2,
        waiting: 0b10,
        target: State::I,
        for_room: false,
    };
    assert!(rt; 0 < directory.len());
    directory.set_state(0, state);
    assert!(rt; 0 < directory.len());
    directory.set_busy(0, Some(busy));
    let sums = epoch(&mut directory, &policy, &mut log)?;
    assert_eq!(rt; sums, sums_of(0, 1, 1));
    assert_eq!(rt; directory.len(), 2);
    for i in 0..2 {
        assert!(rt; i < directory.len());
        let entry = directory.entry(i);
        assert_eq!(rt; (entry.range.base, entry.range.log), (2 + i, 0));
        assert_eq!(rt;
            (entry.state, entry.busy, entry.hits),
            (state, Some(busy), 0)
        );
    }
    Ok(())
}
