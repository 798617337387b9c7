//! Rows of runs, with the texts that are expected of them.

use crate::{CHECK, Files, JOURNAL, RUN, written};
use std::alloc::Global;
use std::test::Fail;

/// A rack, the words of each program in order, a schedule, and the report.
pub struct ReportRow {
    pub rack: &'static str,
    pub programs: &'static [&'static str],
    pub schedule: &'static str,
    pub report: &'static str,
}

/// The same with the journal.
pub struct JournalRow {
    pub rack: &'static str,
    pub programs: &'static [&'static str],
    pub schedule: &'static str,
    pub report: &'static str,
    pub journal: &'static str,
}

/// The words, written in hexadecimal, each with its lowest byte first.
fn image_of(alloc: Global, words: &str) -> Result<Vec<u8>, Fail> {
    let mut bytes = Vec::new(alloc);
    for word in words.split_whitespace() {
        let word = u32::from_str_radix(word, 16).ok().ok_or("no word")?;
        bytes.extend_from_slice(&word.to_le_bytes())?;
    }
    Ok(bytes)
}

const IMAGES: [&str; 5] = ["p0.bin", "p1.bin", "p2.bin", "p3.bin", "p4.bin"];

/// The files of a row: the rack, the schedule, a journal, and an image of each program's words.
pub fn row_files(
    alloc: Global,
    rack: &str,
    programs: &[&'static str],
    schedule: &[u8],
    journal: &[u8],
) -> Result<Files, Fail> {
    let mut files = Files::new(alloc);
    files.put("r.toml", rack.as_bytes())?;
    files.put("s.txt", schedule)?;
    files.put("j.txt", journal)?;
    for (name, words) in IMAGES.iter().zip(programs) {
        let image = image_of(alloc, words)?;
        files.put(name, image.as_slice())?;
    }
    Ok(files)
}

/// With these words the program writes this text over these files; else the failure is this schedule.
fn writes(
    alloc: Global,
    files: Files,
    words: &[&str],
    text: &str,
    schedule: &'static str,
) -> Result<(), Fail> {
    let found = written(alloc, words, files)?;
    if found.as_slice() == text.as_bytes() {
        Ok(())
    } else {
        Err(Fail::new(schedule))
    }
}

/// The files of a row with this journal.
fn files_of(alloc: Global, row: &ReportRow, journal: &[u8]) -> Result<Files, Fail> {
    row_files(
        alloc,
        row.rack,
        row.programs,
        row.schedule.as_bytes(),
        journal,
    )
}

/// Each row is run, and its report is the one that the row has.
pub fn all_report(alloc: Global, rows: &[ReportRow]) -> Result<(), Fail> {
    for row in rows {
        let files = files_of(alloc, row, b"")?;
        writes(alloc, files, &RUN, row.report, row.schedule)?;
    }
    Ok(())
}

fn checks_its_journal(alloc: Global, row: &ReportRow) -> Result<(), Fail> {
    let journal = written(alloc, &JOURNAL, files_of(alloc, row, b"")?)?;
    let files = files_of(alloc, row, journal.as_slice())?;
    writes(alloc, files, &CHECK, row.report, row.schedule)
}

/// A check of the journal of each row's run gives its report again.
pub fn all_check(alloc: Global, rows: &[ReportRow]) -> Result<(), Fail> {
    for row in rows {
        checks_its_journal(alloc, row)?;
    }
    Ok(())
}

fn row_writes(alloc: Global, row: &JournalRow, words: &[&str], text: &str) -> Result<(), Fail> {
    let (schedule, journal) = (row.schedule.as_bytes(), row.journal.as_bytes());
    let files = row_files(alloc, row.rack, row.programs, schedule, journal)?;
    writes(alloc, files, words, text, row.schedule)
}

/// Each row is run, its report and its journal are those that the row has, and a check of that journal gives the report.
pub fn all_journal(alloc: Global, rows: &[JournalRow]) -> Result<(), Fail> {
    for row in rows {
        row_writes(alloc, row, &RUN, row.report)?;
        row_writes(alloc, row, &JOURNAL, row.journal)?;
        row_writes(alloc, row, &CHECK, row.report)?;
    }
    Ok(())
}
