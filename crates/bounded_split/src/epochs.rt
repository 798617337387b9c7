//! An epoch: cold entries merge, hot ones split, and all hits go back to 0.

ghost use Rattle.std.specs.Prelude.{◌≡◌, ◌+◌, ◌*◌, ◌≤◌, ◌++◌, length, IfOk, OnOk, OnErr};
ghost use Rattle.region_directory.specs.Directory.{IsDirectory};
ghost use Rattle.bounded_split.specs.Epoch.{after_epoch, epoch_notes, epoch_turns, merge_notes, split_notes, total_hits};
ghost use Rattle.bounded_split.specs.Threshold.{threshold_of};

use crate::Policy;
use crate::merges::merge_all;
use crate::splits::split_all;
use mind_base::{Log, NoMemory};
use region_directory::Directory;

/// What an epoch did: how many pairs of entries were merged and how many entries were split, and how
/// many hits all entries had before.
#[derive(Clone, Copy, Debug, PartialEq, Eq)]
pub struct EpochSums {
    pub merges: u32,
    pub splits: u32,
    pub hits: u64,
}

/// The hits of all entries.
fn total_hits(directory: &Directory) -> u64
    ensures { result ≡ total_hits directory.now.entries }
{
    let mut total = 0;
    for i in 0..directory.len() {
        total += u64::from(directory.entry(i).hits);
    }
    total
}

/// One epoch, by the verdicts on the entries as it finds them. First, in order, each two cold neighbours
/// that may become one are merged; then, in order, each entry that was not merged and is to be split
/// is split, while a slot is free; then all hits are 0. The notes tell the merges and then the splits.
/// After an error directory and log are as they were.
pub fn epoch(
    directory: &mut Directory,
    policy: &Policy,
    log: &mut Log,
) -> Result<EpochSums, NoMemory>
    ensures directory { OnOk result (directory.new ≡ after_epoch (threshold_of policy.now) directory.old) }
    ensures notes { OnOk result
        (log.new.notes ≡ log.old.notes ++ epoch_notes (threshold_of policy.now) directory.old) }
    ensures sums { IfOk result (λ sums. sums ≡ record {
      merges = length (merge_notes (epoch_turns (threshold_of policy.now) directory.old));
      splits = length (split_notes (epoch_turns (threshold_of policy.now) directory.old));
      hits = total_hits directory.old.entries;
    }) }
    ensures bound { IfOk result (λ sums. sums.splits * ((threshold_of policy.now) + 1) ≤ sums.hits) }
    ensures refused { OnErr result ((directory.new ≡ directory.old) × (log.new ≡ log.old)) }
    ensures valid { IsDirectory directory.new }
{
    let hits = total_hits(directory);
    log.reserve(directory.len() as usize)?;
    let merges = merge_all(directory, policy, log);
    let splits = split_all(directory, policy, log);
    directory.clear_hits();
    Ok(EpochSums {
        merges,
        splits,
        hits,
    })
}
