//! Loads, stores and locked operations on racks that settle.
use crate::tests::racks::{LAST_PAGE, READ_ONLY};
use sample_runs::{ONE, ONE_SLOT, ReportRow, TWO, all_check, all_report};
use std::test::Fail;

static PROGRAMS: [ReportRow; 12] = [
    // Each thread stores and then loads the other's word: without fences both loads miss both stores.
    ReportRow {
        rack: TWO,
        programs: &[
            "000012b7 00002337 00100393 0072a023 00032503 00100893 00000073",
            "000022b7 00001337 00100393 0072a023 00032503 00100893 00000073",
        ],
        schedule: "step 0\nsettle\nstep 0\nsettle\nstep 0\nsettle\nstep 0\nsettle\nstep 1\nsettle\nstep 1\nsettle\nstep 1\nsettle\nstep 1\nsettle\nstep 0\nsettle\nstep 1\nsettle\ndrain 0\nsettle\ndrain 1\nsettle\nstep 0\nsettle\nstep 0\nsettle\nstep 1\nsettle\nstep 1\nsettle\n",
        report: "mind 1\nthread 0 running 0000001c out 00\nthread 1 running 0000001c out 00\ncounts events 32 labels 16 takes 6 gives 2 downs 2 peak 2 splits 0 merges 0\n",
    },
    // A word drains, a byte over it waits, and a load takes each byte where it is newest.
    ReportRow {
        rack: ONE,
        programs: &[
            "000012b7 112233b7 34438393 0072a023 07f00413 008280a3 0002a503 00100893 00000073 00855513 00000073",
        ],
        schedule: "step 0\nstep 0\nstep 0\nstep 0\nsettle\ndrain 0\nsettle\nstep 0\nstep 0\nstep 0\nstep 0\nstep 0\nstep 0\nstep 0\nsettle\n",
        report: "mind 1\nthread 0 running 0000002c out 447f\ncounts events 15 labels 12 takes 1 gives 0 downs 0 peak 1 splits 0 merges 0\n",
    },
    // With fences that order stores before loads both loads see both stores: the first step at each fence drains.
    ReportRow {
        rack: TWO,
        programs: &[
            "000012b7 00002337 00100393 0072a023 0120000f 00032503 00100893 00000073",
            "000022b7 00001337 00100393 0072a023 0120000f 00032503 00100893 00000073",
        ],
        schedule: "step 0\nsettle\nstep 0\nsettle\nstep 0\nsettle\nstep 0\nsettle\nstep 1\nsettle\nstep 1\nsettle\nstep 1\nsettle\nstep 1\nsettle\nstep 0\nsettle\nstep 1\nsettle\nstep 0\nsettle\nstep 1\nsettle\nstep 0\nsettle\nstep 1\nsettle\nstep 0\nsettle\nstep 0\nsettle\nstep 1\nsettle\nstep 1\nsettle\n",
        report: "mind 1\nthread 0 running 00000020 out 01\nthread 1 running 00000020 out 01\ncounts events 36 labels 18 takes 4 gives 0 downs 2 peak 2 splits 0 merges 0\n",
    },
    // A message is passed over repeated frames: a copy is handed over first, and the frame behind it is dropped.
    ReportRow {
        rack: TWO,
        programs: &[
            "000012b7 00002337 00100393 0072a023 00732023",
            "000012b7 00002337 0002a403 00032503 00100893 00000073 0002a503 00000073",
        ],
        schedule: "step 1\nstep 1\nstep 1\nsettle\nstep 0\nstep 0\nstep 0\nstep 0\nrepeat u0 0\ndeliver u0 1\ndeliver u0 0\nrepeat d1 0\ndeliver d1 1\ndeliver u1 0\nsettle\ndrain 0\nstep 0\nsettle\ndrain 0\nsettle\nstep 1\nsettle\nstep 1\nstep 1\nstep 1\nsettle\nstep 1\n",
        report: "mind 1\nthread 0 running 00000014 out -\nthread 1 running 00000020 out 0101\ncounts events 27 labels 15 takes 5 gives 1 downs 2 peak 2 splits 0 merges 0\n",
    },
    // A store of another thread between LR and SC: SC gives 1.
    ReportRow {
        rack: TWO,
        programs: &[
            "000012b7 1002a3af 1872a52f 00100893 00000073",
            "000012b7 0002a023",
        ],
        schedule: "step 0\nstep 0\nsettle\nstep 1\nstep 1\nsettle\ndrain 1\nsettle\nstep 0\nsettle\nstep 0\nstep 0\n",
        report: "mind 1\nthread 0 running 00000014 out 01\nthread 1 running 00000008 out -\ncounts events 12 labels 8 takes 3 gives 2 downs 0 peak 1 splits 0 merges 0\n",
    },
    // The page is given up between them, and comes back as it was: SC gives 0.
    ReportRow {
        rack: ONE,
        programs: &["000012b7 1002a3af 1872a52f 00100893 00000073"],
        schedule: "step 0\nstep 0\nsettle\nevict 0 0 1\nsettle\nstep 0\nsettle\nstep 0\nstep 0\n",
        report: "mind 1\nthread 0 running 00000014 out 00\ncounts events 9 labels 5 takes 2 gives 1 downs 0 peak 1 splits 0 merges 0\n",
    },
    // A store to a page that may only be read; the store before it still drains.
    ReportRow {
        rack: READ_ONLY,
        programs: &["000012b7 00003337 00100393 0072a023 00732223"],
        schedule: "step 0\nstep 0\nstep 0\nstep 0\nsettle\nstep 0\nsettle\ndrain 0\n",
        report: "mind 1\nthread 0 fault store 00003004 at 00000010 out -\ncounts events 8 labels 6 takes 1 gives 0 downs 0 peak 1 splits 0 merges 0\n",
    },
    // A directory of one entry: each page takes the place of the other.
    ReportRow {
        rack: ONE_SLOT,
        programs: &["000012b7 0002a503 0002a503", "000022b7 0002a503 0002a503"],
        schedule: "step 0\nstep 0\nsettle\nstep 1\nstep 1\nsettle\nstep 0\nsettle\nstep 1\nsettle\n",
        report: "mind 1\nthread 0 running 0000000c out -\nthread 1 running 0000000c out -\ncounts events 10 labels 6 takes 4 gives 3 downs 0 peak 1 splits 0 merges 0\n",
    },
    // The last word of a domain.
    ReportRow {
        rack: LAST_PAGE,
        programs: &["ffc00293 00100393 0072a023 0002a503 00100893 00000073 00600067"],
        schedule: "step 0\nstep 0\nstep 0\nsettle\nstep 0\nstep 0\nstep 0\nstep 0\n",
        report: "mind 1\nthread 0 fault target 00000006 at 00000018 out 01\ncounts events 8 labels 7 takes 1 gives 0 downs 0 peak 1 splits 0 merges 0\n",
    },
    // Seven rounds of four events; in the last the thread has ended, and does nothing.
    ReportRow {
        rack: ONE,
        programs: &["04100513 00100893 00000073 00000513 00200893 00000073"],
        schedule: "run 7\n",
        report: "mind 1\nthread 0 exit 0 out 41\ncounts events 28 labels 6 takes 0 gives 0 downs 0 peak 0 splits 0 merges 0\n",
    },
    // The frame of a request is lost, the wire is empty, and the request is sent again.
    ReportRow {
        rack: ONE,
        programs: &["000012b7 0002a503 0002a503"],
        schedule: "step 0\nstep 0\nlose u0 0\ndeliver u0 0\nresend u0\nsettle\nstep 0\n",
        report: "mind 1\nthread 0 running 0000000c out -\ncounts events 7 labels 3 takes 1 gives 0 downs 0 peak 1 splits 0 merges 0\n",
    },
    // Nothing is on the wires, and nothing waits.
    ReportRow {
        rack: TWO,
        programs: &[
            "000012b7 00002337 00100393 0072a023 00032503 00100893 00000073",
            "000022b7 00001337 00100393 0072a023 00032503 00100893 00000073",
        ],
        schedule: "repeat u0 0\ndrain 0\nrepeat f1 1\nsettle\n",
        report: "mind 1\nthread 0 running 00000000 out -\nthread 1 running 00000000 out -\ncounts events 4 labels 0 takes 0 gives 0 downs 0 peak 0 splits 0 merges 0\n",
    },
];

#[test]
fn programs_on_racks_that_settle(rt: HostRuntime) -> Result<(), Fail> {
    all_report(rt.alloc(), &PROGRAMS)?;
    all_check(rt.alloc(), &PROGRAMS)
}
