//! Loads, stores and locked operations.
use crate::tests::racks::{LAST_PAGE, READ_ONLY};
use sample_runs::{ONE, ReportRow, TWO, all_report};
use std::test::Fail;

static MEMORY: [ReportRow; 11] = [
    // Store buffering, without fences.
    ReportRow {
        rack: TWO,
        programs: &[
            "000012b7 00002337 00100393 0072a023 00032503 00100893 00000073",
            "000022b7 00001337 00100393 0072a023 00032503 00100893 00000073",
        ],
        schedule: "step 0\nstep 0\nstep 0\nstep 0\ndeliver u0 0\ndeliver t0 0\ndeliver f0 0\ndeliver d0 0\nstep 1\nstep 1\nstep 1\nstep 1\ndeliver u1 0\ndeliver t0 0\ndeliver f0 0\ndeliver d1 0\nstep 0\ndeliver u0 0\ndeliver d1 0\ndeliver u1 0\ndeliver t0 0\ndeliver f0 0\ndeliver d0 0\nstep 1\ndeliver u1 0\ndeliver d0 0\ndeliver u0 0\ndeliver t0 0\ndeliver f0 0\ndeliver d1 0\ndrain 0\ndeliver u0 0\ndeliver d1 0\ndeliver u1 0\ndeliver t0 0\ndeliver f0 0\ndeliver d0 0\ndrain 1\ndeliver u1 0\ndeliver d0 0\ndeliver u0 0\ndeliver t0 0\ndeliver f0 0\ndeliver d1 0\nstep 0\nstep 0\nstep 1\nstep 1\n",
        report: "mind 1\nthread 0 running 0000001c out 00\nthread 1 running 0000001c out 00\ncounts events 48 labels 16 takes 6 gives 2 downs 2 peak 2 splits 0 merges 0\n",
    },
    // Store buffering, with fences that order stores before loads: the first step at each fence drains.
    ReportRow {
        rack: TWO,
        programs: &[
            "000012b7 00002337 00100393 0072a023 0120000f 00032503 00100893 00000073",
            "000022b7 00001337 00100393 0072a023 0120000f 00032503 00100893 00000073",
        ],
        schedule: "step 0\nstep 0\nstep 0\nstep 0\ndeliver u0 0\ndeliver t0 0\ndeliver f0 0\ndeliver d0 0\nstep 1\nstep 1\nstep 1\nstep 1\ndeliver u1 0\ndeliver t0 0\ndeliver f0 0\ndeliver d1 0\nstep 0\nstep 1\nstep 0\nstep 1\nstep 0\ndeliver u0 0\ndeliver d1 0\ndeliver u1 0\ndeliver u1 0\ndeliver t0 0\ndeliver t0 0\ndeliver f0 0\ndeliver d0 0\nstep 1\ndeliver u1 0\ndeliver d0 0\ndeliver u0 0\ndeliver u0 0\ndeliver t0 0\ndeliver t0 0\ndeliver f0 0\ndeliver d1 0\nstep 0\nstep 0\nstep 1\nstep 1\n",
        report: "mind 1\nthread 0 running 00000020 out 01\nthread 1 running 00000020 out 01\ncounts events 42 labels 18 takes 4 gives 0 downs 2 peak 2 splits 0 merges 0\n",
    },
    // A store of another thread between LR and SC: SC gives 1.
    ReportRow {
        rack: TWO,
        programs: &[
            "000012b7 1002a3af 1872a52f 00100893 00000073",
            "000012b7 0002a023",
        ],
        schedule: "step 0\nstep 0\ndeliver u0 0\ndeliver t0 0\ndeliver f0 0\ndeliver d0 0\nstep 1\nstep 1\ndeliver u1 0\ndeliver d0 0\ndeliver u0 0\ndeliver t0 0\ndeliver f0 0\ndeliver d1 0\ndrain 1\nstep 0\ndeliver u0 0\ndeliver d1 0\ndeliver u1 0\ndeliver u1 0\ndeliver t0 0\ndeliver t0 0\ndeliver f0 0\ndeliver d0 0\nstep 0\nstep 0\n",
        report: "mind 1\nthread 0 running 00000014 out 01\nthread 1 running 00000008 out -\ncounts events 26 labels 8 takes 3 gives 2 downs 0 peak 1 splits 0 merges 0\n",
    },
    // Nothing between them: SC gives 0.
    ReportRow {
        rack: ONE,
        programs: &["000012b7 1002a3af 1872a52f 00100893 00000073"],
        schedule: "step 0\nstep 0\ndeliver u0 0\ndeliver t0 0\ndeliver f0 0\ndeliver d0 0\nstep 0\ndeliver u0 0\ndeliver t0 0\ndeliver f0 0\ndeliver d0 0\nstep 0\nstep 0\n",
        report: "mind 1\nthread 0 running 00000014 out 00\ncounts events 13 labels 5 takes 2 gives 0 downs 0 peak 1 splits 0 merges 0\n",
    },
    // FENCE.TSO does not wait for the buffer.
    ReportRow {
        rack: ONE,
        programs: &["000012b7 00002337 00100393 0072a023 8330000f 00032503 00100893 00000073"],
        schedule: "step 0\nstep 0\nstep 0\nstep 0\ndeliver u0 0\ndeliver t0 0\ndeliver f0 0\ndeliver d0 0\nstep 0\nstep 0\ndeliver u0 0\ndeliver t0 0\ndeliver f0 0\ndeliver d0 0\nstep 0\nstep 0\n",
        report: "mind 1\nthread 0 running 00000020 out 00\ncounts events 16 labels 8 takes 2 gives 0 downs 0 peak 2 splits 0 merges 0\n",
    },
    // fm 1000 with pred W and succ R does.
    ReportRow {
        rack: ONE,
        programs: &["000012b7 00002337 00100393 0072a023 8120000f 00032503 00100893 00000073"],
        schedule: "step 0\nstep 0\nstep 0\nstep 0\ndeliver u0 0\ndeliver t0 0\ndeliver f0 0\ndeliver d0 0\nstep 0\nstep 0\nstep 0\ndeliver u0 0\ndeliver t0 0\ndeliver f0 0\ndeliver d0 0\nstep 0\n",
        report: "mind 1\nthread 0 running 0000001c out -\ncounts events 16 labels 8 takes 2 gives 0 downs 0 peak 2 splits 0 merges 0\n",
    },
    // A word drains, a byte over it waits, and a load takes each byte where it is newest.
    ReportRow {
        rack: ONE,
        programs: &[
            "000012b7 112233b7 34438393 0072a023 07f00413 008280a3 0002a503 00100893 00000073 00855513 00000073",
        ],
        schedule: "step 0\nstep 0\nstep 0\nstep 0\ndeliver u0 0\ndeliver t0 0\ndeliver f0 0\ndeliver d0 0\ndrain 0\nstep 0\nstep 0\nstep 0\nstep 0\nstep 0\nstep 0\nstep 0\n",
        report: "mind 1\nthread 0 running 0000002c out 447f\ncounts events 16 labels 12 takes 1 gives 0 downs 0 peak 1 splits 0 merges 0\n",
    },
    // A store to a page that may only be read; the store before it still drains.
    ReportRow {
        rack: READ_ONLY,
        programs: &["000012b7 00003337 00100393 0072a023 00732223"],
        schedule: "step 0\nstep 0\nstep 0\nstep 0\ndeliver u0 0\ndeliver t0 0\ndeliver f0 0\ndeliver d0 0\nstep 0\ndeliver u0 0\ndeliver d0 0\ndrain 0\n",
        report: "mind 1\nthread 0 fault store 00003004 at 00000010 out -\ncounts events 12 labels 6 takes 1 gives 0 downs 0 peak 1 splits 0 merges 0\n",
    },
    // The last word of a domain.
    ReportRow {
        rack: LAST_PAGE,
        programs: &["ffc00293 00100393 0072a023 0002a503 00100893 00000073 00600067"],
        schedule: "step 0\nstep 0\nstep 0\ndeliver u0 0\ndeliver t1 0\ndeliver f1 0\ndeliver d0 0\nstep 0\nstep 0\nstep 0\nstep 0\n",
        report: "mind 1\nthread 0 fault target 00000006 at 00000018 out 01\ncounts events 11 labels 7 takes 1 gives 0 downs 0 peak 1 splits 0 merges 0\n",
    },
    // A word at no multiple of 4.
    ReportRow {
        rack: ONE,
        programs: &["000012b7 0022a083"],
        schedule: "step 0\nstep 0\n",
        report: "mind 1\nthread 0 fault align 00001002 at 00000004 out -\ncounts events 2 labels 2 takes 0 gives 0 downs 0 peak 0 splits 0 merges 0\n",
    },
    // A page that is not mapped.
    ReportRow {
        rack: ONE,
        programs: &["00002083"],
        schedule: "step 0\ndeliver u0 0\ndeliver d0 0\n",
        report: "mind 1\nthread 0 fault load 00000000 at 00000000 out -\ncounts events 3 labels 1 takes 0 gives 0 downs 0 peak 0 splits 0 merges 0\n",
    },
];

#[test]
fn loads_stores_and_locked_operations(rt: HostRuntime) -> Result<(), Fail> {
    all_report(rt.alloc(), &MEMORY)
}
