//! Store buffering (SB): two threads, each stores one word and loads the other's, without fences, with them,
//! and with locked operations.
use sample_runs::{ReportRow, TWO, all_report};
use std::test::Fail;

const SB: &[&str] = &[
    "000012b7 00002337 00100393 0072a023 00032503 00100893 00000073 00000513 00200893 00000073",
    "000012b7 00002337 00100393 00732023 0002a503 00100893 00000073 00000513 00200893 00000073",
];

static STORE_BUFFERING: [ReportRow; 5] = [
    // SB, both_zero.
    ReportRow {
        rack: TWO,
        programs: SB,
        schedule: "step 0\nstep 0\nstep 0\nstep 1\nstep 1\nstep 1\nstep 0\nsettle\nstep 1\nsettle\nstep 0\nsettle\nstep 1\nsettle\ndrain 0\nsettle\ndrain 1\nsettle\nstep 0\nstep 0\nstep 0\nstep 0\nstep 0\nstep 1\nstep 1\nstep 1\nstep 1\nstep 1\n",
        report: "mind 1\nthread 0 exit 0 out 00\nthread 1 exit 0 out 00\ncounts events 28 labels 22 takes 6 gives 2 downs 2 peak 2 splits 0 merges 0\n",
    },
    // SB, both_zero_deliveries.
    ReportRow {
        rack: TWO,
        programs: SB,
        schedule: "step 0\nstep 0\nstep 0\nstep 1\nstep 1\nstep 1\nstep 0\ndeliver u0 0\ndeliver t0 0\ndeliver f0 0\ndeliver d0 0\nstep 1\ndeliver u1 0\ndeliver t0 0\ndeliver f0 0\ndeliver d1 0\nstep 0\ndeliver u0 0\ndeliver d1 0\ndeliver u1 0\ndeliver t0 0\ndeliver f0 0\ndeliver d0 0\nstep 1\ndeliver u1 0\ndeliver d0 0\ndeliver u0 0\ndeliver t0 0\ndeliver f0 0\ndeliver d1 0\ndrain 0\ndeliver u0 0\ndeliver d1 0\ndeliver u1 0\ndeliver t0 0\ndeliver f0 0\ndeliver d0 0\ndrain 1\ndeliver u1 0\ndeliver d0 0\ndeliver u0 0\ndeliver t0 0\ndeliver f0 0\ndeliver d1 0\nstep 0\nstep 0\nstep 0\nstep 0\nstep 0\nstep 1\nstep 1\nstep 1\nstep 1\nstep 1\n",
        report: "mind 1\nthread 0 exit 0 out 00\nthread 1 exit 0 out 00\ncounts events 54 labels 22 takes 6 gives 2 downs 2 peak 2 splits 0 merges 0\n",
    },
    // SB, zero_one.
    ReportRow {
        rack: TWO,
        programs: SB,
        schedule: "step 0\nstep 0\nstep 0\nstep 0\nsettle\nstep 0\nsettle\ndrain 0\nstep 0\nstep 0\nstep 0\nstep 0\nstep 0\nstep 1\nstep 1\nstep 1\nstep 1\nsettle\nstep 1\nsettle\ndrain 1\nstep 1\nstep 1\nstep 1\nstep 1\nstep 1\n",
        report: "mind 1\nthread 0 exit 0 out 00\nthread 1 exit 0 out 01\ncounts events 26 labels 22 takes 4 gives 1 downs 1 peak 2 splits 0 merges 0\n",
    },
    // SB, one_zero.
    ReportRow {
        rack: TWO,
        programs: SB,
        schedule: "step 1\nstep 1\nstep 1\nstep 1\nsettle\nstep 1\nsettle\ndrain 1\nstep 1\nstep 1\nstep 1\nstep 1\nstep 1\nstep 0\nstep 0\nstep 0\nstep 0\nsettle\nstep 0\nsettle\ndrain 0\nstep 0\nstep 0\nstep 0\nstep 0\nstep 0\n",
        report: "mind 1\nthread 0 exit 0 out 01\nthread 1 exit 0 out 00\ncounts events 26 labels 22 takes 4 gives 1 downs 1 peak 2 splits 0 merges 0\n",
    },
    // SB, both_one.
    ReportRow {
        rack: TWO,
        programs: SB,
        schedule: "step 0\nstep 0\nstep 0\nstep 1\nstep 1\nstep 1\nstep 0\nsettle\nstep 1\nsettle\ndrain 0\ndrain 1\nstep 0\nsettle\nstep 1\nsettle\nstep 0\nstep 0\nstep 0\nstep 0\nstep 0\nstep 1\nstep 1\nstep 1\nstep 1\nstep 1\n",
        report: "mind 1\nthread 0 exit 0 out 01\nthread 1 exit 0 out 01\ncounts events 26 labels 22 takes 4 gives 0 downs 2 peak 2 splits 0 merges 0\n",
    },
];

const SB_ONE_FENCE: &[&str] = &[
    "000012b7 00002337 00100393 0072a023 0120000f 00032503 00100893 00000073 00000513 00200893 00000073",
    "000012b7 00002337 00100393 00732023 0002a503 00100893 00000073 00000513 00200893 00000073",
];

static ONE_FENCE: [ReportRow; 4] = [
    // SB_one_fence, both_zero.
    ReportRow {
        rack: TWO,
        programs: SB_ONE_FENCE,
        schedule: "step 0\nstep 0\nstep 0\nstep 1\nstep 1\nstep 1\nstep 1\nsettle\nstep 1\nsettle\nstep 0\nsettle\nstep 0\nstep 0\nstep 0\nsettle\ndrain 1\nsettle\nstep 0\nstep 0\nstep 0\nstep 0\nstep 0\nstep 1\nstep 1\nstep 1\nstep 1\nstep 1\n",
        report: "mind 1\nthread 0 exit 0 out 00\nthread 1 exit 0 out 00\ncounts events 28 labels 23 takes 5 gives 2 downs 1 peak 2 splits 0 merges 0\n",
    },
    // SB_one_fence, zero_one.
    ReportRow {
        rack: TWO,
        programs: SB_ONE_FENCE,
        schedule: "step 0\nstep 0\nstep 0\nstep 0\nsettle\nstep 0\nstep 0\nstep 0\nsettle\nstep 0\nstep 0\nstep 0\nstep 0\nstep 0\nstep 1\nstep 1\nstep 1\nstep 1\nsettle\nstep 1\nsettle\ndrain 1\nstep 1\nstep 1\nstep 1\nstep 1\nstep 1\n",
        report: "mind 1\nthread 0 exit 0 out 00\nthread 1 exit 0 out 01\ncounts events 27 labels 23 takes 4 gives 1 downs 1 peak 2 splits 0 merges 0\n",
    },
    // SB_one_fence, one_zero.
    ReportRow {
        rack: TWO,
        programs: SB_ONE_FENCE,
        schedule: "step 1\nstep 1\nstep 1\nstep 1\nsettle\nstep 1\nsettle\ndrain 1\nstep 1\nstep 1\nstep 1\nstep 1\nstep 1\nstep 0\nstep 0\nstep 0\nstep 0\nsettle\nstep 0\nstep 0\nstep 0\nsettle\nstep 0\nstep 0\nstep 0\nstep 0\nstep 0\n",
        report: "mind 1\nthread 0 exit 0 out 01\nthread 1 exit 0 out 00\ncounts events 27 labels 23 takes 4 gives 1 downs 1 peak 2 splits 0 merges 0\n",
    },
    // SB_one_fence, both_one.
    ReportRow {
        rack: TWO,
        programs: SB_ONE_FENCE,
        schedule: "step 0\nstep 0\nstep 0\nstep 1\nstep 1\nstep 1\nstep 0\nsettle\nstep 1\nsettle\nstep 0\ndrain 1\nstep 0\nstep 0\nsettle\nstep 1\nsettle\nstep 0\nstep 0\nstep 0\nstep 0\nstep 0\nstep 1\nstep 1\nstep 1\nstep 1\nstep 1\n",
        report: "mind 1\nthread 0 exit 0 out 01\nthread 1 exit 0 out 01\ncounts events 27 labels 23 takes 4 gives 0 downs 2 peak 2 splits 0 merges 0\n",
    },
];

const SB_FENCES: &[&str] = &[
    "000012b7 00002337 00100393 0072a023 0120000f 00032503 00100893 00000073 00000513 00200893 00000073",
    "000012b7 00002337 00100393 00732023 0120000f 0002a503 00100893 00000073 00000513 00200893 00000073",
];

static FENCES: [ReportRow; 4] = [
    // SB_fences, zero_one.
    ReportRow {
        rack: TWO,
        programs: SB_FENCES,
        schedule: "step 0\nstep 0\nstep 0\nstep 0\nsettle\nstep 0\nstep 0\nstep 0\nsettle\nstep 0\nstep 0\nstep 0\nstep 0\nstep 0\nstep 1\nstep 1\nstep 1\nstep 1\nsettle\nstep 1\nstep 1\nstep 1\nsettle\nstep 1\nstep 1\nstep 1\nstep 1\nstep 1\n",
        report: "mind 1\nthread 0 exit 0 out 00\nthread 1 exit 0 out 01\ncounts events 28 labels 24 takes 4 gives 1 downs 1 peak 2 splits 0 merges 0\n",
    },
    // SB_fences, one_zero.
    ReportRow {
        rack: TWO,
        programs: SB_FENCES,
        schedule: "step 1\nstep 1\nstep 1\nstep 1\nsettle\nstep 1\nstep 1\nstep 1\nsettle\nstep 1\nstep 1\nstep 1\nstep 1\nstep 1\nstep 0\nstep 0\nstep 0\nstep 0\nsettle\nstep 0\nstep 0\nstep 0\nsettle\nstep 0\nstep 0\nstep 0\nstep 0\nstep 0\n",
        report: "mind 1\nthread 0 exit 0 out 01\nthread 1 exit 0 out 00\ncounts events 28 labels 24 takes 4 gives 1 downs 1 peak 2 splits 0 merges 0\n",
    },
    // SB_fences, both_one.
    ReportRow {
        rack: TWO,
        programs: SB_FENCES,
        schedule: "step 0\nstep 0\nstep 0\nstep 1\nstep 1\nstep 1\nstep 0\nsettle\nstep 1\nsettle\nstep 0\nstep 1\nstep 0\nstep 1\nstep 0\nsettle\nstep 1\nsettle\nstep 0\nstep 0\nstep 0\nstep 0\nstep 0\nstep 1\nstep 1\nstep 1\nstep 1\nstep 1\n",
        report: "mind 1\nthread 0 exit 0 out 01\nthread 1 exit 0 out 01\ncounts events 28 labels 24 takes 4 gives 0 downs 2 peak 2 splits 0 merges 0\n",
    },
    // SB_fences, tries_both_zero.
    ReportRow {
        rack: TWO,
        programs: SB_FENCES,
        schedule: "step 0\nstep 0\nstep 0\nstep 1\nstep 1\nstep 1\nstep 0\nsettle\nstep 1\nsettle\nstep 0\nstep 0\nstep 0\nsettle\nstep 1\nsettle\nstep 1\nstep 1\nsettle\nstep 0\nstep 0\nstep 0\nstep 0\nstep 0\nstep 1\nstep 1\nstep 1\nstep 1\nstep 1\n",
        report: "mind 1\nthread 0 exit 0 out 00\nthread 1 exit 0 out 01\ncounts events 29 labels 24 takes 5 gives 1 downs 2 peak 2 splits 0 merges 0\n",
    },
];

const SB_AMOS: &[&str] = &[
    "000012b7 00002337 00100393 0872a02f 00032503 00100893 00000073 00000513 00200893 00000073",
    "000012b7 00002337 00100393 0873202f 0002a503 00100893 00000073 00000513 00200893 00000073",
];

static LOCKED_STORES: [ReportRow; 4] = [
    // SB_amos, zero_one.
    ReportRow {
        rack: TWO,
        programs: SB_AMOS,
        schedule: "step 0\nstep 0\nstep 0\nstep 0\nsettle\nstep 0\nsettle\nstep 0\nstep 0\nstep 0\nstep 0\nstep 0\nstep 1\nstep 1\nstep 1\nstep 1\nsettle\nstep 1\nsettle\nstep 1\nstep 1\nstep 1\nstep 1\nstep 1\n",
        report: "mind 1\nthread 0 exit 0 out 00\nthread 1 exit 0 out 01\ncounts events 24 labels 20 takes 4 gives 1 downs 1 peak 2 splits 0 merges 0\n",
    },
    // SB_amos, one_zero.
    ReportRow {
        rack: TWO,
        programs: SB_AMOS,
        schedule: "step 1\nstep 1\nstep 1\nstep 1\nsettle\nstep 1\nsettle\nstep 1\nstep 1\nstep 1\nstep 1\nstep 1\nstep 0\nstep 0\nstep 0\nstep 0\nsettle\nstep 0\nsettle\nstep 0\nstep 0\nstep 0\nstep 0\nstep 0\n",
        report: "mind 1\nthread 0 exit 0 out 01\nthread 1 exit 0 out 00\ncounts events 24 labels 20 takes 4 gives 1 downs 1 peak 2 splits 0 merges 0\n",
    },
    // SB_amos, both_one.
    ReportRow {
        rack: TWO,
        programs: SB_AMOS,
        schedule: "step 0\nstep 0\nstep 0\nstep 1\nstep 1\nstep 1\nstep 0\nsettle\nstep 1\nsettle\nstep 0\nsettle\nstep 1\nsettle\nstep 0\nstep 0\nstep 0\nstep 0\nstep 0\nstep 1\nstep 1\nstep 1\nstep 1\nstep 1\n",
        report: "mind 1\nthread 0 exit 0 out 01\nthread 1 exit 0 out 01\ncounts events 24 labels 20 takes 4 gives 0 downs 2 peak 2 splits 0 merges 0\n",
    },
    // SB_amos, tries_both_zero.
    ReportRow {
        rack: TWO,
        programs: SB_AMOS,
        schedule: "step 0\nstep 0\nstep 0\nstep 1\nstep 1\nstep 1\nstep 0\nsettle\nstep 0\nsettle\ndrain 0\ndrain 1\nstep 1\nsettle\nstep 1\nsettle\nstep 0\nstep 0\nstep 0\nstep 0\nstep 0\nstep 1\nstep 1\nstep 1\nstep 1\nstep 1\n",
        report: "mind 1\nthread 0 exit 0 out 00\nthread 1 exit 0 out 01\ncounts events 26 labels 20 takes 4 gives 1 downs 1 peak 2 splits 0 merges 0\n",
    },
];

const SB_AMO_FENCES: &[&str] = &[
    "000012b7 00002337 00100393 04028e93 0072a023 000ea02f 00032503 00100893 00000073 00000513 00200893 00000073",
    "000012b7 00002337 00100393 04030e93 00732023 000ea02f 0002a503 00100893 00000073 00000513 00200893 00000073",
];

static LOCKED_FENCES: [ReportRow; 4] = [
    // SB_amo_fences, zero_one.
    ReportRow {
        rack: TWO,
        programs: SB_AMO_FENCES,
        schedule: "step 0\nstep 0\nstep 0\nstep 0\nstep 0\nsettle\nstep 0\nstep 0\nstep 0\nsettle\nstep 0\nstep 0\nstep 0\nstep 0\nstep 0\nstep 1\nstep 1\nstep 1\nstep 1\nstep 1\nsettle\nstep 1\nstep 1\nstep 1\nsettle\nstep 1\nstep 1\nstep 1\nstep 1\nstep 1\n",
        report: "mind 1\nthread 0 exit 0 out 00\nthread 1 exit 0 out 01\ncounts events 30 labels 26 takes 4 gives 1 downs 1 peak 2 splits 0 merges 0\n",
    },
    // SB_amo_fences, one_zero.
    ReportRow {
        rack: TWO,
        programs: SB_AMO_FENCES,
        schedule: "step 1\nstep 1\nstep 1\nstep 1\nstep 1\nsettle\nstep 1\nstep 1\nstep 1\nsettle\nstep 1\nstep 1\nstep 1\nstep 1\nstep 1\nstep 0\nstep 0\nstep 0\nstep 0\nstep 0\nsettle\nstep 0\nstep 0\nstep 0\nsettle\nstep 0\nstep 0\nstep 0\nstep 0\nstep 0\n",
        report: "mind 1\nthread 0 exit 0 out 01\nthread 1 exit 0 out 00\ncounts events 30 labels 26 takes 4 gives 1 downs 1 peak 2 splits 0 merges 0\n",
    },
    // SB_amo_fences, both_one.
    ReportRow {
        rack: TWO,
        programs: SB_AMO_FENCES,
        schedule: "step 0\nstep 0\nstep 0\nstep 0\nstep 1\nstep 1\nstep 1\nstep 1\nstep 0\nsettle\nstep 1\nsettle\nstep 0\nstep 1\nstep 0\nstep 1\nstep 0\nsettle\nstep 1\nsettle\nstep 0\nstep 0\nstep 0\nstep 0\nstep 0\nstep 1\nstep 1\nstep 1\nstep 1\nstep 1\n",
        report: "mind 1\nthread 0 exit 0 out 01\nthread 1 exit 0 out 01\ncounts events 30 labels 26 takes 4 gives 0 downs 2 peak 2 splits 0 merges 0\n",
    },
    // SB_amo_fences, tries_both_zero.
    ReportRow {
        rack: TWO,
        programs: SB_AMO_FENCES,
        schedule: "step 0\nstep 0\nstep 0\nstep 0\nstep 1\nstep 1\nstep 1\nstep 1\nstep 0\nsettle\nstep 1\nsettle\nstep 0\nstep 0\nstep 0\nsettle\nstep 1\nsettle\nstep 1\nstep 1\nsettle\nstep 0\nstep 0\nstep 0\nstep 0\nstep 0\nstep 1\nstep 1\nstep 1\nstep 1\nstep 1\n",
        report: "mind 1\nthread 0 exit 0 out 00\nthread 1 exit 0 out 01\ncounts events 31 labels 26 takes 5 gives 1 downs 2 peak 2 splits 0 merges 0\n",
    },
];

#[test]
fn each_allowed_outcome_of_store_buffering_is_reached(rt: HostRuntime) -> Result<(), Fail> {
    all_report(rt.alloc(), &STORE_BUFFERING)?;
    all_report(rt.alloc(), &ONE_FENCE)?;
    all_report(rt.alloc(), &FENCES)?;
    all_report(rt.alloc(), &LOCKED_STORES)?;
    all_report(rt.alloc(), &LOCKED_FENCES)?;
    Ok(())
}
