//! Schedules that the generator makes, and their runs.
use crate::tests::calls::{PUTS_A, expect, files_of};
use crate::tests::runs::TWO_THREADS;
use mind_top::Status;
use sample_runs::{RUN, written};
use std::alloc::Global;
use std::test::Fail;

/// The words, and what is written.
struct Row {
    words: &'static [&'static str],
    status: Status,
    rack: &'static str,
    text: &'static str,
}

const THREE_LINES: &str = "repeat u0 0\ndrain 0\nrepeat f1 1\nsettle\n";

static ROWS: [Row; 5] = [
    Row {
        words: &["make", "r.toml", "3", "0"],
        status: Status::Done,
        rack: TWO_THREADS,
        text: THREE_LINES,
    },
    Row {
        words: &["make", "r.toml", "0x3", "0x0"],
        status: Status::Done,
        rack: TWO_THREADS,
        text: THREE_LINES,
    },
    Row {
        words: &["load", "r.toml", "3", "0"],
        status: Status::Done,
        rack: TWO_THREADS,
        text: "mind 1\nthread 0 running 00000000 out -\nthread 1 running 00000000 out -\ncounts events 4 labels 0 takes 0 gives 0 downs 0 peak 0 splits 0 merges 0\n",
    },
    Row {
        words: &["make", "r.toml", "3", "0"],
        status: Status::Malformed,
        rack: "format =",
        text: "refused rack toml\n",
    },
    Row {
        words: &["load", "r.toml", "3", "0"],
        status: Status::Malformed,
        rack: "format = 2\n",
        text: "refused rack limit format\n",
    },
];

#[test]
fn schedules_are_made_and_run(rt: HostRuntime) -> Result<(), Fail> {
    for row in &ROWS {
        let files = files_of(rt.alloc(), row.rack, PUTS_A, "")?;
        let _log = expect(&rt, row.words, files, 512, row.status, row.text)?;
    }
    Ok(())
}

/// What these words write, over files of which one is this schedule.
fn text_of(alloc: Global, words: &[&str], schedule: &str) -> Result<String, Fail> {
    let files = files_of(alloc, TWO_THREADS, PUTS_A, schedule)?;
    let text = written(alloc, words, files)?;
    Ok(String::from_utf8_lossy(alloc, text.as_slice())?)
}

#[test]
fn a_run_of_what_is_made_writes_the_same(rt: HostRuntime) -> Result<(), Fail> {
    let alloc = rt.alloc();
    let schedule = text_of(alloc, &["make", "r.toml", "200", "7"], "")?;
    let ran = text_of(alloc, &RUN, schedule.as_str())?;
    let loaded = text_of(alloc, &["load", "r.toml", "200", "7"], "")?;
    assert!(rt; ran == loaded, "{ran}");
    Ok(())
}
