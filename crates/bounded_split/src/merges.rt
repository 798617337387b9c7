//! Cold neighbours become one entry.

ghost use Rattle.std.specs.Prelude.{◌≡◌, ◌+◌, ◌≤◌, ◌<◌, length};
ghost use Rattle.bounded_split.specs.Epoch.{judged, entries_left, merge_notes, turns_of_merges};
ghost use Rattle.bounded_split.specs.Turns.{MergesAt, Turned};
ghost use Rattle.bounded_split.specs.Threshold.{threshold_of};

use crate::{Load, Policy, Verdict};
use mind_base::{Log, Note};
use region_directory::{Directory, Entry};

/// The policy's verdict on an entry.
pub fn judge(policy: &Policy, entry: &Entry) -> Verdict
    ensures { result ≡ judged (threshold_of policy.now) entry.now }
{
    policy.verdict(Load {
        log: entry.range.log,
        hits: entry.hits,
    })
}

/// Merges the entry with this index and the next one, where both are cold and they may become one, and
/// notes the block that is made; gives how many merges there were, 0 or 1.
fn merge_cold(directory: &mut Directory, policy: &Policy, log: &mut Log, i: u32) -> u32
    requires within { i < length directory.old.entries }
    requires room { 0 < log.old.spare }
    ensures turned { MergesAt (threshold_of policy.now) i directory.old directory.new log.old log.new result }
    ensures spare { log.old.spare ≤ log.new.spare + result }
{
    let count = directory.len();
    if i + 1 == count {
        return 0;
    }
    let lower = directory.entry(i);
    let upper = directory.entry(i + 1);
    let (Verdict::Cold, Verdict::Cold) = (judge(policy, &lower), judge(policy, &upper)) else {
        return 0;
    };
    let Some(range) = directory.merge(i) else {
        return 0;
    };
    log.add(Note::Merge { range }).unwrap();
    1
}

/// Merges, in order, each two cold neighbours that may become one; no entry is in two of these. There
/// is room for a note of each.
pub fn merge_all(directory: &mut Directory, policy: &Policy, log: &mut Log) -> u32
    requires { length directory.old.entries ≤ log.old.spare }
    ensures turned { Turned (entries_left (turns_of_merges (threshold_of policy.now) directory.old))
        (merge_notes (turns_of_merges (threshold_of policy.now) directory.old)) directory.old directory.new log.old log.new result }
    ensures spare { length directory.new.entries ≤ log.new.spare }
{
    let mut merges = 0;
    let mut i = 0;
    while i < directory.len() {
        merges += merge_cold(directory, policy, log, i);
        i += 1;
    }
    merges
}
