//! Hot entries become two while a slot is free.

ghost use Rattle.std.specs.Prelude.{◌+◌, ◌≤◌, ◌<◌, length};
ghost use Rattle.bounded_split.specs.Epoch.{entries_left, split_notes};
ghost use Rattle.bounded_split.specs.Hot.{hot_turns_in};
ghost use Rattle.bounded_split.specs.Turns.{SplitsAt, Turned};
ghost use Rattle.bounded_split.specs.Threshold.{threshold_of};

use crate::merges::judge;
use crate::{Policy, Verdict};
use mind_base::{Log, Note};
use region_directory::Directory;

/// Splits the entry with this index, where the verdict says so and a slot is free, and notes its block;
/// gives how many splits there were, 0 or 1.
fn split_hot(directory: &mut Directory, policy: &Policy, log: &mut Log, i: u32) -> u32
    requires within { i < length directory.old.entries }
    requires room { 0 < log.old.spare }
    ensures turned { SplitsAt (threshold_of policy.now) i directory.old directory.new log.old log.new result }
    ensures spare { log.old.spare ≤ log.new.spare + result }
{
    let entry = directory.entry(i);
    if !matches!(judge(policy, &entry), Verdict::Split) || !directory.split(i) {
        return 0;
    }
    log.add(Note::Split { range: entry.range }).unwrap();
    1
}

/// Splits, in order, each entry that the verdict says to split, while a slot is free; no half is split
/// again. There is room for a note of each.
pub fn split_all(directory: &mut Directory, policy: &Policy, log: &mut Log) -> u32
    requires { length directory.old.entries ≤ log.old.spare }
    ensures turned { Turned (entries_left (hot_turns_in (threshold_of policy.now) directory.old))
        (split_notes (hot_turns_in (threshold_of policy.now) directory.old)) directory.old directory.new log.old log.new result }
{
    let mut splits = 0;
    let mut i = 0;
    while i < directory.len() {
        let halved = split_hot(directory, policy, log, i);
        splits += halved;
        i += 1 + halved;
    }
    splits
}
