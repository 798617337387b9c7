//! Message passing (MP), load buffering (LB), and a write that one thread reads and passes on (WRC).
use crate::tests::racks::THREE;
use sample_runs::{ReportRow, TWO, all_report};
use std::test::Fail;

const MP: &[&str] = &[
    "000012b7 00002337 00100393 0072a023 00732023 00000513 00200893 00000073",
    "000012b7 00002337 00032403 0002a483 00040513 00100893 00000073 00048513 00000073 00000513 00200893 00000073",
];

static MESSAGE_PASSING: [ReportRow; 5] = [
    // MP, both_zero.
    ReportRow {
        rack: TWO,
        programs: MP,
        schedule: "step 0\nstep 0\nstep 0\nstep 1\nstep 1\nstep 0\nsettle\nstep 0\nsettle\nstep 1\nsettle\nstep 1\nsettle\ndrain 0\nsettle\ndrain 0\nsettle\nstep 0\nstep 0\nstep 0\nstep 1\nstep 1\nstep 1\nstep 1\nstep 1\nstep 1\nstep 1\nstep 1\n",
        report: "mind 1\nthread 0 exit 0 out -\nthread 1 exit 0 out 0000\ncounts events 28 labels 22 takes 6 gives 2 downs 2 peak 2 splits 0 merges 0\n",
    },
    // MP, zero_one.
    ReportRow {
        rack: TWO,
        programs: MP,
        schedule: "step 0\nstep 0\nstep 0\nstep 1\nstep 1\nstep 0\nsettle\nstep 0\nsettle\nstep 1\nsettle\ndrain 0\nstep 1\nsettle\ndrain 0\nsettle\nstep 0\nstep 0\nstep 0\nstep 1\nstep 1\nstep 1\nstep 1\nstep 1\nstep 1\nstep 1\nstep 1\n",
        report: "mind 1\nthread 0 exit 0 out -\nthread 1 exit 0 out 0001\ncounts events 27 labels 22 takes 5 gives 1 downs 2 peak 2 splits 0 merges 0\n",
    },
    // MP, both_one.
    ReportRow {
        rack: TWO,
        programs: MP,
        schedule: "step 0\nstep 0\nstep 0\nstep 0\nsettle\ndrain 0\nstep 0\nsettle\ndrain 0\nstep 0\nstep 0\nstep 0\nstep 1\nstep 1\nstep 1\nsettle\nstep 1\nsettle\nstep 1\nstep 1\nstep 1\nstep 1\nstep 1\nstep 1\nstep 1\nstep 1\n",
        report: "mind 1\nthread 0 exit 0 out -\nthread 1 exit 0 out 0101\ncounts events 26 labels 22 takes 4 gives 0 downs 2 peak 2 splits 0 merges 0\n",
    },
    // MP, tries_one_zero.
    ReportRow {
        rack: TWO,
        programs: MP,
        schedule: "step 0\nstep 0\nstep 0\nstep 1\nstep 1\nstep 0\nsettle\nstep 0\nsettle\nstep 0\nstep 0\nstep 0\ndrain 0\nstep 1\nsettle\nstep 1\nsettle\ndrain 0\nsettle\nstep 1\nstep 1\nstep 1\nstep 1\nstep 1\nstep 1\nstep 1\nstep 1\n",
        report: "mind 1\nthread 0 exit 0 out -\nthread 1 exit 0 out 0001\ncounts events 27 labels 22 takes 5 gives 1 downs 2 peak 2 splits 0 merges 0\n",
    },
    // MP, tries_one_zero_deliveries.
    ReportRow {
        rack: TWO,
        programs: MP,
        schedule: "step 0\nstep 0\nstep 0\nstep 1\nstep 1\nstep 0\ndeliver u0 0\ndeliver t0 0\ndeliver f0 0\ndeliver d0 0\nstep 0\ndeliver u0 0\ndeliver t0 0\ndeliver f0 0\ndeliver d0 0\nstep 0\nstep 0\nstep 0\ndrain 0\nstep 1\ndeliver u1 0\ndeliver d0 0\ndeliver u0 0\ndeliver t0 0\ndeliver f0 0\ndeliver d1 0\nstep 1\ndeliver u1 0\ndeliver d0 0\ndeliver u0 0\ndeliver u0 0\ndeliver t0 0\ndeliver t0 0\ndeliver f0 0\ndeliver d1 0\ndrain 0\ndeliver u0 0\ndeliver d1 0\ndeliver u1 0\ndeliver t0 0\ndeliver f0 0\ndeliver d0 0\nstep 1\nstep 1\nstep 1\nstep 1\nstep 1\nstep 1\nstep 1\nstep 1\n",
        report: "mind 1\nthread 0 exit 0 out -\nthread 1 exit 0 out 0001\ncounts events 50 labels 22 takes 5 gives 1 downs 2 peak 2 splits 0 merges 0\n",
    },
];

const LB: &[&str] = &[
    "000012b7 00002337 00100393 0002a503 00732023 00100893 00000073 00000513 00200893 00000073",
    "000012b7 00002337 00100393 00032503 0072a023 00100893 00000073 00000513 00200893 00000073",
];

static LOAD_BUFFERING: [ReportRow; 4] = [
    // LB, both_zero.
    ReportRow {
        rack: TWO,
        programs: LB,
        schedule: "step 0\nstep 0\nstep 0\nstep 1\nstep 1\nstep 1\nstep 0\nsettle\nstep 1\nsettle\nstep 0\nsettle\nstep 1\nsettle\ndrain 0\ndrain 1\nstep 0\nstep 0\nstep 0\nstep 0\nstep 0\nstep 1\nstep 1\nstep 1\nstep 1\nstep 1\n",
        report: "mind 1\nthread 0 exit 0 out 00\nthread 1 exit 0 out 00\ncounts events 26 labels 22 takes 4 gives 2 downs 0 peak 2 splits 0 merges 0\n",
    },
    // LB, zero_one.
    ReportRow {
        rack: TWO,
        programs: LB,
        schedule: "step 0\nstep 0\nstep 0\nstep 0\nsettle\nstep 0\nsettle\ndrain 0\nstep 0\nstep 0\nstep 0\nstep 0\nstep 0\nstep 1\nstep 1\nstep 1\nstep 1\nsettle\nstep 1\nsettle\ndrain 1\nstep 1\nstep 1\nstep 1\nstep 1\nstep 1\n",
        report: "mind 1\nthread 0 exit 0 out 00\nthread 1 exit 0 out 01\ncounts events 26 labels 22 takes 4 gives 1 downs 1 peak 2 splits 0 merges 0\n",
    },
    // LB, one_zero.
    ReportRow {
        rack: TWO,
        programs: LB,
        schedule: "step 1\nstep 1\nstep 1\nstep 1\nsettle\nstep 1\nsettle\ndrain 1\nstep 1\nstep 1\nstep 1\nstep 1\nstep 1\nstep 0\nstep 0\nstep 0\nstep 0\nsettle\nstep 0\nsettle\ndrain 0\nstep 0\nstep 0\nstep 0\nstep 0\nstep 0\n",
        report: "mind 1\nthread 0 exit 0 out 01\nthread 1 exit 0 out 00\ncounts events 26 labels 22 takes 4 gives 1 downs 1 peak 2 splits 0 merges 0\n",
    },
    // LB, tries_both_one.
    ReportRow {
        rack: TWO,
        programs: LB,
        schedule: "step 0\nstep 0\nstep 0\nstep 1\nstep 1\nstep 1\nstep 0\nsettle\nstep 0\nsettle\ndrain 0\nstep 1\nsettle\nstep 1\nsettle\ndrain 1\nstep 0\nstep 0\nstep 0\nstep 0\nstep 0\nstep 1\nstep 1\nstep 1\nstep 1\nstep 1\n",
        report: "mind 1\nthread 0 exit 0 out 00\nthread 1 exit 0 out 01\ncounts events 26 labels 22 takes 4 gives 1 downs 1 peak 2 splits 0 merges 0\n",
    },
];

const WRC: &[&str] = &[
    "000012b7 00100393 0072a023 00000513 00200893 00000073",
    "000012b7 00002337 00100393 0002a503 00732023 00100893 00000073 00000513 00200893 00000073",
    "000012b7 00002337 00032403 0002a483 00040513 00100893 00000073 00048513 00000073 00000513 00200893 00000073",
];

static WRITE_TO_READ: [ReportRow; 8] = [
    // WRC, all_zero.
    ReportRow {
        rack: THREE,
        programs: WRC,
        schedule: "step 0\nstep 0\nstep 1\nstep 1\nstep 1\nstep 2\nstep 2\nstep 2\nsettle\nstep 2\nsettle\nstep 1\nsettle\nstep 1\nsettle\ndrain 1\nstep 0\nsettle\ndrain 0\nstep 0\nstep 0\nstep 0\nstep 1\nstep 1\nstep 1\nstep 1\nstep 1\nstep 2\nstep 2\nstep 2\nstep 2\nstep 2\nstep 2\nstep 2\nstep 2\n",
        report: "mind 1\nthread 0 exit 0 out -\nthread 1 exit 0 out 00\nthread 2 exit 0 out 0000\ncounts events 35 labels 30 takes 5 gives 3 downs 0 peak 2 splits 0 merges 0\n",
    },
    // WRC, zero_zero_one.
    ReportRow {
        rack: THREE,
        programs: WRC,
        schedule: "step 0\nstep 0\nstep 1\nstep 1\nstep 1\nstep 2\nstep 2\nstep 1\nsettle\nstep 1\nsettle\nstep 0\nsettle\ndrain 0\nstep 2\nsettle\nstep 2\nsettle\ndrain 1\nsettle\nstep 0\nstep 0\nstep 0\nstep 1\nstep 1\nstep 1\nstep 1\nstep 1\nstep 2\nstep 2\nstep 2\nstep 2\nstep 2\nstep 2\nstep 2\nstep 2\n",
        report: "mind 1\nthread 0 exit 0 out -\nthread 1 exit 0 out 00\nthread 2 exit 0 out 0001\ncounts events 36 labels 30 takes 6 gives 2 downs 2 peak 2 splits 0 merges 0\n",
    },
    // WRC, zero_one_zero.
    ReportRow {
        rack: THREE,
        programs: WRC,
        schedule: "step 1\nstep 1\nstep 1\nstep 1\nsettle\nstep 1\nsettle\ndrain 1\nstep 1\nstep 1\nstep 1\nstep 1\nstep 1\nstep 2\nstep 2\nstep 2\nsettle\nstep 2\nsettle\nstep 2\nstep 2\nstep 2\nstep 2\nstep 2\nstep 2\nstep 2\nstep 2\nstep 0\nstep 0\nstep 0\nsettle\ndrain 0\nstep 0\nstep 0\nstep 0\n",
        report: "mind 1\nthread 0 exit 0 out -\nthread 1 exit 0 out 00\nthread 2 exit 0 out 0100\ncounts events 35 labels 30 takes 5 gives 2 downs 1 peak 2 splits 0 merges 0\n",
    },
    // WRC, zero_one_one.
    ReportRow {
        rack: THREE,
        programs: WRC,
        schedule: "step 1\nstep 1\nstep 1\nstep 1\nsettle\nstep 1\nsettle\ndrain 1\nstep 1\nstep 1\nstep 1\nstep 1\nstep 1\nstep 0\nstep 0\nstep 0\nsettle\ndrain 0\nstep 0\nstep 0\nstep 0\nstep 2\nstep 2\nstep 2\nsettle\nstep 2\nsettle\nstep 2\nstep 2\nstep 2\nstep 2\nstep 2\nstep 2\nstep 2\nstep 2\n",
        report: "mind 1\nthread 0 exit 0 out -\nthread 1 exit 0 out 00\nthread 2 exit 0 out 0101\ncounts events 35 labels 30 takes 5 gives 1 downs 2 peak 2 splits 0 merges 0\n",
    },
    // WRC, one_zero_zero.
    ReportRow {
        rack: THREE,
        programs: WRC,
        schedule: "step 0\nstep 0\nstep 1\nstep 1\nstep 1\nstep 2\nstep 2\nstep 2\nsettle\nstep 2\nsettle\nstep 0\nsettle\ndrain 0\nstep 1\nsettle\nstep 1\nsettle\ndrain 1\nstep 0\nstep 0\nstep 0\nstep 1\nstep 1\nstep 1\nstep 1\nstep 1\nstep 2\nstep 2\nstep 2\nstep 2\nstep 2\nstep 2\nstep 2\nstep 2\n",
        report: "mind 1\nthread 0 exit 0 out -\nthread 1 exit 0 out 01\nthread 2 exit 0 out 0000\ncounts events 35 labels 30 takes 5 gives 2 downs 1 peak 2 splits 0 merges 0\n",
    },
    // WRC, one_zero_one.
    ReportRow {
        rack: THREE,
        programs: WRC,
        schedule: "step 0\nstep 0\nstep 1\nstep 1\nstep 1\nstep 2\nstep 2\nstep 0\nsettle\ndrain 0\nstep 1\nsettle\nstep 1\nsettle\nstep 2\nsettle\nstep 2\nsettle\ndrain 1\nsettle\nstep 0\nstep 0\nstep 0\nstep 1\nstep 1\nstep 1\nstep 1\nstep 1\nstep 2\nstep 2\nstep 2\nstep 2\nstep 2\nstep 2\nstep 2\nstep 2\n",
        report: "mind 1\nthread 0 exit 0 out -\nthread 1 exit 0 out 01\nthread 2 exit 0 out 0001\ncounts events 36 labels 30 takes 6 gives 1 downs 2 peak 2 splits 0 merges 0\n",
    },
    // WRC, all_one.
    ReportRow {
        rack: THREE,
        programs: WRC,
        schedule: "step 0\nstep 0\nstep 0\nsettle\ndrain 0\nstep 0\nstep 0\nstep 0\nstep 1\nstep 1\nstep 1\nstep 1\nsettle\nstep 1\nsettle\ndrain 1\nstep 1\nstep 1\nstep 1\nstep 1\nstep 1\nstep 2\nstep 2\nstep 2\nsettle\nstep 2\nsettle\nstep 2\nstep 2\nstep 2\nstep 2\nstep 2\nstep 2\nstep 2\nstep 2\n",
        report: "mind 1\nthread 0 exit 0 out -\nthread 1 exit 0 out 01\nthread 2 exit 0 out 0101\ncounts events 35 labels 30 takes 5 gives 0 downs 2 peak 2 splits 0 merges 0\n",
    },
    // WRC, tries_one_one_zero.
    ReportRow {
        rack: THREE,
        programs: WRC,
        schedule: "step 0\nstep 0\nstep 1\nstep 1\nstep 1\nstep 2\nstep 2\nstep 0\nsettle\nstep 1\nsettle\nstep 1\nsettle\ndrain 1\nstep 2\nsettle\nstep 2\nsettle\ndrain 0\nsettle\nstep 0\nstep 0\nstep 0\nstep 1\nstep 1\nstep 1\nstep 1\nstep 1\nstep 2\nstep 2\nstep 2\nstep 2\nstep 2\nstep 2\nstep 2\nstep 2\n",
        report: "mind 1\nthread 0 exit 0 out -\nthread 1 exit 0 out 00\nthread 2 exit 0 out 0100\ncounts events 36 labels 30 takes 6 gives 2 downs 2 peak 2 splits 0 merges 0\n",
    },
];

#[test]
fn each_allowed_outcome_of_passing_a_message_is_reached(rt: HostRuntime) -> Result<(), Fail> {
    all_report(rt.alloc(), &MESSAGE_PASSING)?;
    all_report(rt.alloc(), &LOAD_BUFFERING)?;
    all_report(rt.alloc(), &WRITE_TO_READ)?;
    Ok(())
}
