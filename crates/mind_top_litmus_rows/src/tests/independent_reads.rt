//! Independent reads of independent writes (IRIW): two threads store, and two read both words.
use crate::tests::racks::FOUR;
use sample_runs::{ReportRow, all_report};
use std::test::Fail;

const IRIW: &[&str] = &[
    "000012b7 00100393 0072a023 00000513 00200893 00000073",
    "00002337 00100393 00732023 00000513 00200893 00000073",
    "000012b7 00002337 0002a403 00032483 00040513 00100893 00000073 00048513 00000073 00000513 00200893 00000073",
    "000012b7 00002337 00032403 0002a483 00040513 00100893 00000073 00048513 00000073 00000513 00200893 00000073",
];

static INDEPENDENT_READS: [ReportRow; 17] = [
    // IRIW, all_zero.
    ReportRow {
        rack: FOUR,
        programs: IRIW,
        schedule: "step 0\nstep 0\nstep 1\nstep 1\nstep 2\nstep 2\nstep 3\nstep 3\nstep 0\nsettle\nstep 1\nsettle\nstep 2\nsettle\nstep 2\nsettle\nstep 3\nsettle\nstep 3\nsettle\ndrain 0\nsettle\ndrain 1\nsettle\nstep 0\nstep 0\nstep 0\nstep 1\nstep 1\nstep 1\nstep 2\nstep 2\nstep 2\nstep 2\nstep 2\nstep 2\nstep 2\nstep 2\nstep 3\nstep 3\nstep 3\nstep 3\nstep 3\nstep 3\nstep 3\nstep 3\n",
        report: "mind 1\nthread 0 exit 0 out -\nthread 1 exit 0 out -\nthread 2 exit 0 out 0000\nthread 3 exit 0 out 0000\ncounts events 46 labels 38 takes 8 gives 4 downs 2 peak 2 splits 0 merges 0\n",
    },
    // IRIW, x_first.
    ReportRow {
        rack: FOUR,
        programs: IRIW,
        schedule: "step 0\nstep 0\nstep 1\nstep 1\nstep 2\nstep 2\nstep 3\nstep 3\nstep 0\nsettle\nstep 1\nsettle\nstep 3\nsettle\ndrain 0\nstep 2\nsettle\nstep 2\nsettle\nstep 3\nsettle\ndrain 1\nsettle\nstep 0\nstep 0\nstep 0\nstep 1\nstep 1\nstep 1\nstep 2\nstep 2\nstep 2\nstep 2\nstep 2\nstep 2\nstep 2\nstep 2\nstep 3\nstep 3\nstep 3\nstep 3\nstep 3\nstep 3\nstep 3\nstep 3\n",
        report: "mind 1\nthread 0 exit 0 out -\nthread 1 exit 0 out -\nthread 2 exit 0 out 0100\nthread 3 exit 0 out 0001\ncounts events 45 labels 38 takes 7 gives 2 downs 2 peak 2 splits 0 merges 0\n",
    },
    // IRIW, y_first.
    ReportRow {
        rack: FOUR,
        programs: IRIW,
        schedule: "step 0\nstep 0\nstep 1\nstep 1\nstep 2\nstep 2\nstep 3\nstep 3\nstep 0\nsettle\nstep 1\nsettle\nstep 2\nsettle\ndrain 1\nstep 3\nsettle\nstep 3\nsettle\nstep 2\nsettle\ndrain 0\nsettle\nstep 0\nstep 0\nstep 0\nstep 1\nstep 1\nstep 1\nstep 2\nstep 2\nstep 2\nstep 2\nstep 2\nstep 2\nstep 2\nstep 2\nstep 3\nstep 3\nstep 3\nstep 3\nstep 3\nstep 3\nstep 3\nstep 3\n",
        report: "mind 1\nthread 0 exit 0 out -\nthread 1 exit 0 out -\nthread 2 exit 0 out 0001\nthread 3 exit 0 out 0100\ncounts events 45 labels 38 takes 7 gives 2 downs 2 peak 2 splits 0 merges 0\n",
    },
    // IRIW, all_one.
    ReportRow {
        rack: FOUR,
        programs: IRIW,
        schedule: "step 0\nstep 0\nstep 1\nstep 1\nstep 2\nstep 2\nstep 3\nstep 3\nstep 0\nsettle\nstep 1\nsettle\ndrain 0\ndrain 1\nstep 2\nsettle\nstep 2\nsettle\nstep 3\nsettle\nstep 3\nsettle\nstep 0\nstep 0\nstep 0\nstep 1\nstep 1\nstep 1\nstep 2\nstep 2\nstep 2\nstep 2\nstep 2\nstep 2\nstep 2\nstep 2\nstep 3\nstep 3\nstep 3\nstep 3\nstep 3\nstep 3\nstep 3\nstep 3\n",
        report: "mind 1\nthread 0 exit 0 out -\nthread 1 exit 0 out -\nthread 2 exit 0 out 0101\nthread 3 exit 0 out 0101\ncounts events 44 labels 38 takes 6 gives 0 downs 2 peak 2 splits 0 merges 0\n",
    },
    // IRIW, zero_zero_zero_one.
    ReportRow {
        rack: FOUR,
        programs: IRIW,
        schedule: "step 0\nstep 0\nstep 1\nstep 1\nstep 2\nstep 2\nstep 3\nstep 3\nstep 0\nsettle\nstep 1\nsettle\nstep 2\nsettle\ndrain 0\nsettle\nstep 2\nsettle\nstep 3\nsettle\ndrain 1\nsettle\nstep 3\nsettle\nstep 0\nstep 0\nstep 0\nstep 1\nstep 1\nstep 1\nstep 2\nstep 2\nstep 2\nstep 2\nstep 2\nstep 2\nstep 2\nstep 2\nstep 3\nstep 3\nstep 3\nstep 3\nstep 3\nstep 3\nstep 3\nstep 3\n",
        report: "mind 1\nthread 0 exit 0 out -\nthread 1 exit 0 out -\nthread 2 exit 0 out 0000\nthread 3 exit 0 out 0001\ncounts events 46 labels 38 takes 8 gives 3 downs 3 peak 2 splits 0 merges 0\n",
    },
    // IRIW, zero_zero_one_zero.
    ReportRow {
        rack: FOUR,
        programs: IRIW,
        schedule: "step 0\nstep 0\nstep 1\nstep 1\nstep 2\nstep 2\nstep 3\nstep 3\nstep 0\nsettle\nstep 1\nsettle\nstep 2\nsettle\nstep 2\nsettle\ndrain 1\nsettle\nstep 3\nsettle\nstep 3\nsettle\ndrain 0\nsettle\nstep 0\nstep 0\nstep 0\nstep 1\nstep 1\nstep 1\nstep 2\nstep 2\nstep 2\nstep 2\nstep 2\nstep 2\nstep 2\nstep 2\nstep 3\nstep 3\nstep 3\nstep 3\nstep 3\nstep 3\nstep 3\nstep 3\n",
        report: "mind 1\nthread 0 exit 0 out -\nthread 1 exit 0 out -\nthread 2 exit 0 out 0000\nthread 3 exit 0 out 0100\ncounts events 46 labels 38 takes 8 gives 3 downs 3 peak 2 splits 0 merges 0\n",
    },
    // IRIW, zero_zero_one_one.
    ReportRow {
        rack: FOUR,
        programs: IRIW,
        schedule: "step 0\nstep 0\nstep 1\nstep 1\nstep 2\nstep 2\nstep 3\nstep 3\nstep 0\nsettle\nstep 1\nsettle\nstep 2\nsettle\ndrain 0\nsettle\nstep 2\nsettle\ndrain 1\nsettle\nstep 3\nsettle\nstep 3\nsettle\nstep 0\nstep 0\nstep 0\nstep 1\nstep 1\nstep 1\nstep 2\nstep 2\nstep 2\nstep 2\nstep 2\nstep 2\nstep 2\nstep 2\nstep 3\nstep 3\nstep 3\nstep 3\nstep 3\nstep 3\nstep 3\nstep 3\n",
        report: "mind 1\nthread 0 exit 0 out -\nthread 1 exit 0 out -\nthread 2 exit 0 out 0000\nthread 3 exit 0 out 0101\ncounts events 46 labels 38 takes 8 gives 2 downs 4 peak 2 splits 0 merges 0\n",
    },
    // IRIW, zero_one_zero_zero.
    ReportRow {
        rack: FOUR,
        programs: IRIW,
        schedule: "step 0\nstep 0\nstep 1\nstep 1\nstep 2\nstep 2\nstep 3\nstep 3\nstep 0\nsettle\nstep 1\nsettle\nstep 2\nsettle\nstep 3\nsettle\ndrain 1\nsettle\nstep 2\nsettle\nstep 3\nsettle\ndrain 0\nsettle\nstep 0\nstep 0\nstep 0\nstep 1\nstep 1\nstep 1\nstep 2\nstep 2\nstep 2\nstep 2\nstep 2\nstep 2\nstep 2\nstep 2\nstep 3\nstep 3\nstep 3\nstep 3\nstep 3\nstep 3\nstep 3\nstep 3\n",
        report: "mind 1\nthread 0 exit 0 out -\nthread 1 exit 0 out -\nthread 2 exit 0 out 0001\nthread 3 exit 0 out 0000\ncounts events 46 labels 38 takes 8 gives 3 downs 3 peak 2 splits 0 merges 0\n",
    },
    // IRIW, zero_one_zero_one.
    ReportRow {
        rack: FOUR,
        programs: IRIW,
        schedule: "step 0\nstep 0\nstep 1\nstep 1\nstep 2\nstep 2\nstep 3\nstep 3\nstep 0\nsettle\nstep 1\nsettle\nstep 2\nsettle\ndrain 0\nsettle\nstep 3\nsettle\ndrain 1\nsettle\nstep 2\nsettle\nstep 3\nsettle\nstep 0\nstep 0\nstep 0\nstep 1\nstep 1\nstep 1\nstep 2\nstep 2\nstep 2\nstep 2\nstep 2\nstep 2\nstep 2\nstep 2\nstep 3\nstep 3\nstep 3\nstep 3\nstep 3\nstep 3\nstep 3\nstep 3\n",
        report: "mind 1\nthread 0 exit 0 out -\nthread 1 exit 0 out -\nthread 2 exit 0 out 0001\nthread 3 exit 0 out 0001\ncounts events 46 labels 38 takes 8 gives 2 downs 4 peak 2 splits 0 merges 0\n",
    },
    // IRIW, zero_one_one_one.
    ReportRow {
        rack: FOUR,
        programs: IRIW,
        schedule: "step 0\nstep 0\nstep 1\nstep 1\nstep 2\nstep 2\nstep 3\nstep 3\nstep 0\nsettle\nstep 1\nsettle\ndrain 1\nstep 2\nsettle\ndrain 0\nsettle\nstep 2\nsettle\nstep 3\nsettle\nstep 3\nsettle\nstep 0\nstep 0\nstep 0\nstep 1\nstep 1\nstep 1\nstep 2\nstep 2\nstep 2\nstep 2\nstep 2\nstep 2\nstep 2\nstep 2\nstep 3\nstep 3\nstep 3\nstep 3\nstep 3\nstep 3\nstep 3\nstep 3\n",
        report: "mind 1\nthread 0 exit 0 out -\nthread 1 exit 0 out -\nthread 2 exit 0 out 0001\nthread 3 exit 0 out 0101\ncounts events 45 labels 38 takes 7 gives 1 downs 3 peak 2 splits 0 merges 0\n",
    },
    // IRIW, one_zero_zero_zero.
    ReportRow {
        rack: FOUR,
        programs: IRIW,
        schedule: "step 0\nstep 0\nstep 1\nstep 1\nstep 2\nstep 2\nstep 3\nstep 3\nstep 0\nsettle\nstep 1\nsettle\nstep 3\nsettle\nstep 3\nsettle\ndrain 0\nsettle\nstep 2\nsettle\nstep 2\nsettle\ndrain 1\nsettle\nstep 0\nstep 0\nstep 0\nstep 1\nstep 1\nstep 1\nstep 2\nstep 2\nstep 2\nstep 2\nstep 2\nstep 2\nstep 2\nstep 2\nstep 3\nstep 3\nstep 3\nstep 3\nstep 3\nstep 3\nstep 3\nstep 3\n",
        report: "mind 1\nthread 0 exit 0 out -\nthread 1 exit 0 out -\nthread 2 exit 0 out 0100\nthread 3 exit 0 out 0000\ncounts events 46 labels 38 takes 8 gives 3 downs 3 peak 2 splits 0 merges 0\n",
    },
    // IRIW, one_zero_one_one.
    ReportRow {
        rack: FOUR,
        programs: IRIW,
        schedule: "step 0\nstep 0\nstep 1\nstep 1\nstep 2\nstep 2\nstep 3\nstep 3\nstep 0\nsettle\nstep 1\nsettle\ndrain 0\nstep 2\nsettle\nstep 2\nsettle\ndrain 1\nsettle\nstep 3\nsettle\nstep 3\nsettle\nstep 0\nstep 0\nstep 0\nstep 1\nstep 1\nstep 1\nstep 2\nstep 2\nstep 2\nstep 2\nstep 2\nstep 2\nstep 2\nstep 2\nstep 3\nstep 3\nstep 3\nstep 3\nstep 3\nstep 3\nstep 3\nstep 3\n",
        report: "mind 1\nthread 0 exit 0 out -\nthread 1 exit 0 out -\nthread 2 exit 0 out 0100\nthread 3 exit 0 out 0101\ncounts events 45 labels 38 takes 7 gives 1 downs 3 peak 2 splits 0 merges 0\n",
    },
    // IRIW, one_one_zero_zero.
    ReportRow {
        rack: FOUR,
        programs: IRIW,
        schedule: "step 0\nstep 0\nstep 1\nstep 1\nstep 2\nstep 2\nstep 3\nstep 3\nstep 0\nsettle\nstep 1\nsettle\nstep 3\nsettle\ndrain 1\nsettle\nstep 3\nsettle\ndrain 0\nsettle\nstep 2\nsettle\nstep 2\nsettle\nstep 0\nstep 0\nstep 0\nstep 1\nstep 1\nstep 1\nstep 2\nstep 2\nstep 2\nstep 2\nstep 2\nstep 2\nstep 2\nstep 2\nstep 3\nstep 3\nstep 3\nstep 3\nstep 3\nstep 3\nstep 3\nstep 3\n",
        report: "mind 1\nthread 0 exit 0 out -\nthread 1 exit 0 out -\nthread 2 exit 0 out 0101\nthread 3 exit 0 out 0000\ncounts events 46 labels 38 takes 8 gives 2 downs 4 peak 2 splits 0 merges 0\n",
    },
    // IRIW, one_one_zero_one.
    ReportRow {
        rack: FOUR,
        programs: IRIW,
        schedule: "step 0\nstep 0\nstep 1\nstep 1\nstep 2\nstep 2\nstep 3\nstep 3\nstep 0\nsettle\nstep 1\nsettle\ndrain 0\nstep 2\nsettle\nstep 3\nsettle\ndrain 1\nsettle\nstep 2\nsettle\nstep 3\nsettle\nstep 0\nstep 0\nstep 0\nstep 1\nstep 1\nstep 1\nstep 2\nstep 2\nstep 2\nstep 2\nstep 2\nstep 2\nstep 2\nstep 2\nstep 3\nstep 3\nstep 3\nstep 3\nstep 3\nstep 3\nstep 3\nstep 3\n",
        report: "mind 1\nthread 0 exit 0 out -\nthread 1 exit 0 out -\nthread 2 exit 0 out 0101\nthread 3 exit 0 out 0001\ncounts events 45 labels 38 takes 7 gives 1 downs 3 peak 2 splits 0 merges 0\n",
    },
    // IRIW, one_one_one_zero.
    ReportRow {
        rack: FOUR,
        programs: IRIW,
        schedule: "step 0\nstep 0\nstep 1\nstep 1\nstep 2\nstep 2\nstep 3\nstep 3\nstep 0\nsettle\nstep 1\nsettle\ndrain 1\nstep 3\nsettle\nstep 3\nsettle\ndrain 0\nsettle\nstep 2\nsettle\nstep 2\nsettle\nstep 0\nstep 0\nstep 0\nstep 1\nstep 1\nstep 1\nstep 2\nstep 2\nstep 2\nstep 2\nstep 2\nstep 2\nstep 2\nstep 2\nstep 3\nstep 3\nstep 3\nstep 3\nstep 3\nstep 3\nstep 3\nstep 3\n",
        report: "mind 1\nthread 0 exit 0 out -\nthread 1 exit 0 out -\nthread 2 exit 0 out 0101\nthread 3 exit 0 out 0100\ncounts events 45 labels 38 takes 7 gives 1 downs 3 peak 2 splits 0 merges 0\n",
    },
    // IRIW, tries_one_zero_one_zero.
    ReportRow {
        rack: FOUR,
        programs: IRIW,
        schedule: "step 0\nstep 0\nstep 1\nstep 1\nstep 2\nstep 2\nstep 3\nstep 3\nstep 0\nsettle\nstep 1\nsettle\ndrain 0\nstep 2\nsettle\nstep 2\nsettle\ndrain 1\nsettle\nstep 3\nsettle\nstep 3\nsettle\nstep 0\nstep 0\nstep 0\nstep 1\nstep 1\nstep 1\nstep 2\nstep 2\nstep 2\nstep 2\nstep 2\nstep 2\nstep 2\nstep 2\nstep 3\nstep 3\nstep 3\nstep 3\nstep 3\nstep 3\nstep 3\nstep 3\n",
        report: "mind 1\nthread 0 exit 0 out -\nthread 1 exit 0 out -\nthread 2 exit 0 out 0100\nthread 3 exit 0 out 0101\ncounts events 45 labels 38 takes 7 gives 1 downs 3 peak 2 splits 0 merges 0\n",
    },
    // IRIW, tries_one_zero_one_zero_deliveries.
    ReportRow {
        rack: FOUR,
        programs: IRIW,
        schedule: "step 0\nstep 0\nstep 1\nstep 1\nstep 2\nstep 2\nstep 3\nstep 3\nstep 0\ndeliver u0 0\ndeliver t0 0\ndeliver f0 0\ndeliver d0 0\nstep 1\ndeliver u1 0\ndeliver t0 0\ndeliver f0 0\ndeliver d1 0\ndrain 0\nstep 2\ndeliver u2 0\ndeliver d0 0\ndeliver u0 0\ndeliver u0 0\ndeliver t0 0\ndeliver t0 0\ndeliver f0 0\ndeliver d2 0\nstep 2\ndeliver u2 0\ndeliver d1 0\ndeliver u1 0\ndeliver t0 0\ndeliver f0 0\ndeliver d2 0\ndrain 1\ndeliver u1 0\ndeliver d2 0\ndeliver u2 0\ndeliver t0 0\ndeliver f0 0\ndeliver d1 0\nstep 3\ndeliver u3 0\ndeliver d1 0\ndeliver u1 0\ndeliver u1 0\ndeliver t0 0\ndeliver t0 0\ndeliver f0 0\ndeliver d3 0\nstep 3\ndeliver u3 0\ndeliver t0 0\ndeliver f0 0\ndeliver d3 0\nstep 0\nstep 0\nstep 0\nstep 1\nstep 1\nstep 1\nstep 2\nstep 2\nstep 2\nstep 2\nstep 2\nstep 2\nstep 2\nstep 2\nstep 3\nstep 3\nstep 3\nstep 3\nstep 3\nstep 3\nstep 3\nstep 3\n",
        report: "mind 1\nthread 0 exit 0 out -\nthread 1 exit 0 out -\nthread 2 exit 0 out 0100\nthread 3 exit 0 out 0101\ncounts events 78 labels 38 takes 7 gives 1 downs 3 peak 2 splits 0 merges 0\n",
    },
];

#[test]
fn each_allowed_outcome_of_independent_reads_is_reached(rt: HostRuntime) -> Result<(), Fail> {
    all_report(rt.alloc(), &INDEPENDENT_READS)
}
