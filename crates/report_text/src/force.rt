//! The blocks whose entries are in force, note by note.

ghost use Rattle.std.specs.Prelude.{◌≡◌, [], List, IfOk, OnOk};
ghost use Rattle.mind_base.specs.Range.{RangeView, halves_of};
ghost use Rattle.report_text.specs.Force.{has_block, without, entered, split_into, merged_from, after_note, peak};
ghost use Rattle.report_text.specs.Kept.{key_of, HoldsKeys};

use mind_base::{Log, NoMemory, Note, Range};
use std::alloc::Global;
use std::collections::BTreeSet;

/// A block as a key: ordered by domain, then by first page, then by size.
#[derive(Clone, Copy, Debug, PartialEq, Eq, PartialOrd, Ord)]
struct BlockKey {
    domain: u8,
    base: u32,
    log: u8,
}

fn make_key(range: Range) -> BlockKey
    ensures { result ≡ key_of range }
{
    BlockKey {
        domain: range.domain,
        base: range.base,
        log: range.log,
    }
}

/// Whether the block is among these.
fn has(kept: &BTreeSet<BlockKey>, range: Range) -> bool
    ensures { (blocks : List RangeView) → HoldsKeys kept.now blocks → result ≡ has_block range blocks }
{
    kept.contains(&make_key(range))
}

/// Takes the block out, if it is there.
fn remove(kept: &mut BTreeSet<BlockKey>, range: Range)
    ensures { (blocks : List RangeView) → HoldsKeys kept.old blocks → HoldsKeys kept.new (without range blocks) }
{
    kept.remove(&make_key(range));
}

/// Puts the block in, if it is not there yet.
fn enter(kept: &mut BTreeSet<BlockKey>, range: Range) -> Result<(), NoMemory>
    ensures { OnOk result ((blocks : List RangeView) → HoldsKeys kept.old blocks → HoldsKeys kept.new (entered range blocks)) }
{
    kept.insert(make_key(range))?;
    Ok(())
}

/// Puts the two halves of a block in its place, where it is there and has more than one page.
fn split(kept: &mut BTreeSet<BlockKey>, range: Range) -> Result<(), NoMemory>
    ensures { OnOk result ((blocks : List RangeView) → HoldsKeys kept.old blocks → HoldsKeys kept.new (split_into range blocks (halves_of range))) }
{
    let Some((lower, upper)) = range.halves() else {
        return Ok(());
    };
    if !has(kept, range) {
        return Ok(());
    }
    remove(kept, range);
    enter(kept, lower)?;
    enter(kept, upper)
}

/// Puts a block in the place of its two halves, where both are there.
fn merge(kept: &mut BTreeSet<BlockKey>, range: Range) -> Result<(), NoMemory>
    ensures { OnOk result ((blocks : List RangeView) → HoldsKeys kept.old blocks → HoldsKeys kept.new (merged_from range blocks (halves_of range))) }
{
    let Some((lower, upper)) = range.halves() else {
        return Ok(());
    };
    if !has(kept, lower) {
        return Ok(());
    }
    if !has(kept, upper) {
        return Ok(());
    }
    remove(kept, lower);
    remove(kept, upper);
    enter(kept, range)
}

/// Takes one note over.
fn take_note(kept: &mut BTreeSet<BlockKey>, note: Note) -> Result<(), NoMemory>
    ensures { OnOk result ((blocks : List RangeView) → HoldsKeys kept.old blocks → HoldsKeys kept.new (after_note blocks note)) }
{
    match note {
        Note::Region { range, .. } => enter(kept, range),
        Note::Gone { range } => {
            remove(kept, range);
            Ok(())
        }
        Note::Split { range } => split(kept, range),
        Note::Merge { range } => merge(kept, range),
        _ => Ok(()),
    }
}

/// A set that keeps no block.
fn make_empty(alloc: Global) -> BTreeSet<BlockKey>
    ensures { HoldsKeys result [] }
{
    BTreeSet::new(alloc)
}

/// The greatest number of directory entries in force at any point of a log.
pub fn peak_in(alloc: Global, log: &Log) -> Result<usize, NoMemory>
    ensures { IfOk result (λ most. most ≡ peak log.now.notes) }
{
    let mut kept = make_empty(alloc);
    let mut most = 0;
    for i in 0..log.len() {
        take_note(&mut kept, log.get(i))?;
        most = most.max(kept.len());
    }
    Ok(most)
}
