//! Calls of the program for tests: files in memory, the words, and what a call leaves; rows of racks, programs and schedules.
#![tactic(auto)]

mod calls;
mod files;
mod racks;
mod recorders;
mod rows;

pub use calls::{CHECK, JOURNAL, RUN, Ran, call, written};
pub use files::Files;
pub use racks::{ONE, ONE_SLOT, TWO};
pub use rows::{JournalRow, ReportRow, all_check, all_journal, all_report, row_files};
