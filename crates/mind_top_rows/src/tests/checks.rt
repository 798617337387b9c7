//! Journals that are checked, and texts that are none.
use crate::tests::calls::{EMPTY, SIX_NOTED, SIX_STEPS, expect, files_with};
use mind_top::Status;
use sample_runs::CHECK;
use std::process::Abort;
use std::test::Fail;

/// A journal that is checked against the program that puts a byte.
struct Check {
    schedule: &'static str,
    journal: &'static str,
    status: Status,
    text: &'static str,
}

static CHECKS: [Check; 7] = [
    Check {
        schedule: SIX_STEPS,
        journal: SIX_NOTED,
        status: Status::Done,
        text: "mind 1\nthread 0 exit 0 out 41\ncounts events 6 labels 6 takes 0 gives 0 downs 0 peak 0 splits 0 merges 0\n",
    },
    // The schedule is read, and need not be that of the journal.
    Check {
        schedule: "",
        journal: "mind journal 1\nx 0\ng 7 15 0\n",
        status: Status::Done,
        text: "mind 1\nthread 0 running 00000004 out -\ncounts events 0 labels 1 takes 0 gives 1 downs 0 peak 0 splits 0 merges 0\n",
    },
    // The third line drains, and there is no store to drain.
    Check {
        schedule: SIX_STEPS,
        journal: "mind journal 1\ne 0\nd 0\ne 1\nx 0\ne 2\nx 0\ne 3\nx 0\ne 4\nx 0\ne 5\nx 0\n",
        status: Status::NotARun,
        text: "not a run: label 0\n",
    },
    // The program has ended after six labels.
    Check {
        schedule: SIX_STEPS,
        journal: "mind journal 1\nx 0\nx 0\nx 0\nx 0\nx 0\nx 0\nx 0\n",
        status: Status::NotARun,
        text: "not a run: label 6\n",
    },
    // There is no such thread.
    Check {
        schedule: "",
        journal: "mind journal 1\nx 0\nx 63\n",
        status: Status::NotARun,
        text: "not a run: label 1\n",
    },
    // The schedule is judged before the journal.
    Check {
        schedule: "step 64\n",
        journal: "",
        status: Status::Malformed,
        text: "refused schedule range 1\n",
    },
    Check {
        schedule: "map 0 3 1 rw\n",
        journal: EMPTY,
        status: Status::Malformed,
        text: "refused schedule early\n",
    },
];

/// Checks a journal; a check leaves no log.
fn checks<R: Abort + AllocGlobal>(
    rt: &R,
    schedule: &str,
    journal: &str,
    room: u32,
    status: Status,
    text: &str,
) -> Result<(), Fail> {
    let files = files_with(rt.alloc(), schedule, journal)?;
    let log = expect(rt, &CHECK, files, room, status, text)?;
    assert!(rt; log.len() == 0);
    Ok(())
}

#[test]
fn checks_of_journals(rt: HostRuntime) -> Result<(), Fail> {
    for row in &CHECKS {
        checks(&rt, row.schedule, row.journal, 4096, row.status, row.text)?;
    }
    checks(
        &rt,
        "",
        "mind journal 1\nd 0\n",
        5,
        Status::WriteFault,
        "not a",
    )
}

/// A text that is no journal, and what is said of it.
struct NoJournal {
    journal: &'static str,
    text: &'static str,
}

static NO_JOURNALS: [NoJournal; 19] = [
    NoJournal {
        journal: "",
        text: "refused journal head\n",
    },
    NoJournal {
        journal: "e 0\n",
        text: "refused journal head\n",
    },
    NoJournal {
        journal: "mind journal 1 \ne 0\n",
        text: "refused journal head\n",
    },
    NoJournal {
        journal: "mind journal 1",
        text: "refused journal head\n",
    },
    NoJournal {
        journal: "mind journal 1\nq 0\n",
        text: "refused journal line 2\n",
    },
    NoJournal {
        journal: "mind journal 1\ne 0\nx\n",
        text: "refused journal line 3\n",
    },
    NoJournal {
        journal: "mind journal 1\nx 0 0\n",
        text: "refused journal line 2\n",
    },
    NoJournal {
        journal: "mind journal 1\ne 0\nx  0\n",
        text: "refused journal line 3\n",
    },
    NoJournal {
        journal: "mind journal 1\ne 00\n",
        text: "refused journal line 2\n",
    },
    NoJournal {
        journal: "mind journal 1\ne 1000000\n",
        text: "refused journal line 2\n",
    },
    NoJournal {
        journal: "mind journal 1\ne 0\ne 1\nx 64\n",
        text: "refused journal line 4\n",
    },
    NoJournal {
        journal: "mind journal 1\ng 8 0 0\n",
        text: "refused journal line 2\n",
    },
    NoJournal {
        journal: "mind journal 1\nr 0 0 0 s 0\n",
        text: "refused journal line 2\n",
    },
    NoJournal {
        journal: "mind journal 1\nr 0 0 0 s 256\n",
        text: "refused journal line 2\n",
    },
    NoJournal {
        journal: "mind journal 1\no 0 0 10\n",
        text: "refused journal line 2\n",
    },
    NoJournal {
        journal: "mind journal 1\ns 0 1 1\n",
        text: "refused journal line 2\n",
    },
    NoJournal {
        journal: "mind journal 1\nm 0 waiting\n",
        text: "refused journal line 2\n",
    },
    NoJournal {
        journal: "mind journal 1\ne 0\nx 0",
        text: "refused journal line 3\n",
    },
    NoJournal {
        journal: "mind journal 1\n\ne 0\n",
        text: "refused journal line 2\n",
    },
];

#[test]
fn texts_that_are_no_journal(rt: HostRuntime) -> Result<(), Fail> {
    for row in &NO_JOURNALS {
        checks(&rt, "", row.journal, 4096, Status::Malformed, row.text)?;
    }
    Ok(())
}
