//! Which calls leave a rack, and a log.
use crate::tests::calls::{SIX_NOTED, SIX_STEPS, files_with};
use mind_top::Status;
use sample_runs::{CHECK, JOURNAL, RUN, call};
use std::process::Abort;
use std::test::Fail;

/// The words, a schedule, the room for output, how the call ends, and whether a rack ran, so that it is left with its log.
struct Ending {
    words: &'static [&'static str],
    schedule: &'static str,
    room: u32,
    status: Status,
    ran: bool,
}

static ENDINGS: [Ending; 8] = [
    Ending {
        words: &RUN,
        schedule: SIX_STEPS,
        room: 4096,
        status: Status::Done,
        ran: true,
    },
    Ending {
        words: &JOURNAL,
        schedule: SIX_STEPS,
        room: 4096,
        status: Status::Done,
        ran: true,
    },
    // The report finds no room.
    Ending {
        words: &RUN,
        schedule: SIX_STEPS,
        room: 5,
        status: Status::WriteFault,
        ran: true,
    },
    // A check runs no rack.
    Ending {
        words: &CHECK,
        schedule: SIX_STEPS,
        room: 4096,
        status: Status::Done,
        ran: false,
    },
    Ending {
        words: &CHECK,
        schedule: SIX_STEPS,
        room: 5,
        status: Status::WriteFault,
        ran: false,
    },
    Ending {
        words: &RUN,
        schedule: "step 64\n",
        room: 4096,
        status: Status::Malformed,
        ran: false,
    },
    // The line of a refusal finds no room.
    Ending {
        words: &RUN,
        schedule: "step 64\n",
        room: 5,
        status: Status::WriteFault,
        ran: false,
    },
    Ending {
        words: &["run"],
        schedule: SIX_STEPS,
        room: 4096,
        status: Status::Usage,
        ran: false,
    },
];

fn ends<R: Abort + AllocGlobal>(rt: &R, row: &Ending) -> Result<(), Fail> {
    let files = files_with(rt.alloc(), row.schedule, SIX_NOTED)?;
    let ran = call(rt.alloc(), row.words, files, row.room)?;
    assert!(rt; ran.status == row.status);
    assert!(rt; ran.has_rack == row.ran);
    assert!(rt; (ran.log.len() > 0) == row.ran);
    Ok(())
}

#[test]
fn a_run_leaves_its_rack_and_its_log(rt: HostRuntime) -> Result<(), Fail> {
    for row in &ENDINGS {
        ends(&rt, row)?;
    }
    Ok(())
}
