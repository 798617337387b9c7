//! Runs that settle once more.
use sample_runs::{JOURNAL, JournalRow, row_files, written};
use std::process::Abort;
use std::test::Fail;

/// How many events the schedule has, each on a line of its own.
fn events(schedule: &str) -> u32 {
    let mut count: u32 = 0;
    for byte in schedule.as_bytes() {
        if *byte == b'\n' {
            count = count.saturating_add(1);
        }
    }
    count
}

/// A second `settle` behind the last adds its own note to the journal, and no other.
fn settles_once<R: Abort + AllocGlobal>(rt: &R, row: &JournalRow) -> Result<(), Fail> {
    let alloc = rt.alloc();
    let again = format!(in alloc; "{}settle\n", row.schedule)?;
    let journal = format!(in alloc; "{}e {}\n", row.journal, events(row.schedule))?;
    let files = row_files(alloc, row.rack, row.programs, again.as_bytes(), b"")?;
    let found = written(alloc, &JOURNAL, files)?;
    assert!(rt; found.as_slice() == journal.as_bytes(), "{}", row.schedule);
    Ok(())
}

/// In each row whose schedule ends with `settle`, nothing is left under way behind it.
pub fn all_settle_once<R: Abort + AllocGlobal>(rt: &R, rows: &[JournalRow]) -> Result<(), Fail> {
    for row in rows {
        if row.schedule.ends_with("settle\n") {
            settles_once(rt, row)?;
        }
    }
    Ok(())
}
