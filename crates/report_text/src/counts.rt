//! The line of counts.

ghost use Rattle.std.specs.Prelude.{◌≡◌, ◌++◌, IfOk, OnOk};
ghost use Rattle.report_text.specs.Counts.{count_of, counts_of, named, counts_front, counts_rest, counts_text};

use crate::force::peak_in;
use crate::kinds::{Kind, counts_as};
use mind_base::{Log, NoMemory};
use plain_text::put_decimal;
use std::alloc::Global;

/// The counts of a log: the numbers of its notes by kind, and the greatest number of directory entries
/// in force.
#[derive(Clone, Copy, Debug)]
pub struct Counts {
    pub events: u64,
    pub labels: u64,
    pub takes: u64,
    pub gives: u64,
    pub downs: u64,
    pub peak: u64,
    pub splits: u64,
    pub merges: u64,
}

/// How many notes of a log count under this kind.
fn count(log: &Log, kind: Kind) -> u64
    ensures { result ≡ count_of kind log.now.notes }
{
    let mut count = 0;
    for i in 0..log.len() {
        if counts_as(kind, log.get(i)) {
            count += 1;
        }
    }
    count
}

/// The counts of a log.
pub fn counts_in(alloc: Global, log: &Log) -> Result<Counts, NoMemory>
    ensures { IfOk result (λ counts. counts ≡ counts_of log.now.notes) }
{
    let peak = peak_in(alloc, log)? as u64;
    Ok(Counts {
        events: count(log, Kind::Event),
        labels: count(log, Kind::Label),
        takes: count(log, Kind::Take),
        gives: count(log, Kind::Give),
        downs: count(log, Kind::Down),
        peak,
        splits: count(log, Kind::Split),
        merges: count(log, Kind::Merge),
    })
}

fn put_named(alloc: Global, out: &mut Vec<u8>, name: &[u8], n: u64) -> Result<(), NoMemory>
    ensures { OnOk result (out.new.items ≡ out.old.items ++ named name.now n) }
{
    out.extend_from_slice(b" ")?;
    out.extend_from_slice(name)?;
    out.extend_from_slice(b" ")?;
    put_decimal(alloc, out, n)
}

fn put_front(alloc: Global, out: &mut Vec<u8>, counts: &Counts) -> Result<(), NoMemory>
    ensures { OnOk result (out.new.items ≡ out.old.items ++ counts_front counts.now) }
{
    out.extend_from_slice(b"counts")?;
    put_named(alloc, out, b"events", counts.events)?;
    put_named(alloc, out, b"labels", counts.labels)?;
    put_named(alloc, out, b"takes", counts.takes)?;
    put_named(alloc, out, b"gives", counts.gives)
}

fn put_rest(alloc: Global, out: &mut Vec<u8>, counts: &Counts) -> Result<(), NoMemory>
    ensures { OnOk result (out.new.items ≡ out.old.items ++ counts_rest counts.now) }
{
    put_named(alloc, out, b"downs", counts.downs)?;
    put_named(alloc, out, b"peak", counts.peak)?;
    put_named(alloc, out, b"splits", counts.splits)?;
    put_named(alloc, out, b"merges", counts.merges)?;
    out.extend_from_slice(b"\n")?;
    Ok(())
}

/// The line of counts.
pub fn put_counts(alloc: Global, out: &mut Vec<u8>, counts: &Counts) -> Result<(), NoMemory>
    ensures { OnOk result (out.new.items ≡ out.old.items ++ counts_text counts.now) }
{
    put_front(alloc, out, counts)?;
    put_rest(alloc, out, counts)
}
