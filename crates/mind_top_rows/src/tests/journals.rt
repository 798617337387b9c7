//! Journals of runs.
use crate::tests::calls::{EMPTY, PUTS_A, RACK, SIX_NOTED, SIX_STEPS, expect, files_of};
use mind_top::Status;
use sample_runs::JOURNAL;
use std::test::Fail;

/// A schedule of the program that puts a byte, and its journal.
struct Journal {
    schedule: &'static str,
    status: Status,
    text: &'static str,
}

static JOURNALS: [Journal; 6] = [
    Journal {
        schedule: SIX_STEPS,
        status: Status::Done,
        text: SIX_NOTED,
    },
    Journal {
        schedule: "",
        status: Status::Done,
        text: EMPTY,
    },
    // There is no store to drain.
    Journal {
        schedule: "drain 0\nstep 0\nevict 0 0 1\n",
        status: Status::Done,
        text: "mind journal 1\ne 0\ne 1\nx 0\ne 2\n",
    },
    // Nothing is under way that could settle.
    Journal {
        schedule: "settle\n",
        status: Status::Done,
        text: "mind journal 1\ne 0\n",
    },
    // A round is a step, a settling, a drain and a settling.
    Journal {
        schedule: "run 1\n",
        status: Status::Done,
        text: "mind journal 1\ne 0\nx 0\ne 1\ne 2\ne 3\n",
    },
    Journal {
        schedule: "map 0 3 1 rw\n",
        status: Status::Malformed,
        text: "refused schedule early\n",
    },
];

#[test]
fn journals_of_runs(rt: HostRuntime) -> Result<(), Fail> {
    for row in &JOURNALS {
        let files = files_of(rt.alloc(), RACK, PUTS_A, row.schedule)?;
        let _log = expect(&rt, &JOURNAL, files, 4096, row.status, row.text)?;
    }
    Ok(())
}
