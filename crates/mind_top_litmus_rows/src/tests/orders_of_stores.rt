//! Stores of two threads to the same words: S, R, 2+2W, and a thread that reads its own store early (n6).
use crate::tests::racks::THREE;
use sample_runs::{ReportRow, all_report};
use std::test::Fail;

const S: &[&str] = &[
    "000012b7 00002337 00200393 00100e13 0072a023 01c32023 00000513 00200893 00000073",
    "000012b7 00002337 00100393 00032503 0072a023 00100893 00000073 00000513 00200893 00000073",
    "000012b7 0002a503 00100893 00000073 00000513 00200893 00000073",
];

static STORE_BEHIND_LOAD: [ReportRow; 4] = [
    // S, zero_one.
    ReportRow {
        rack: THREE,
        programs: S,
        schedule: "step 0\nstep 0\nstep 0\nstep 0\nstep 1\nstep 1\nstep 1\nstep 1\nsettle\nstep 1\nsettle\nstep 0\nsettle\nstep 0\nsettle\ndrain 0\ndrain 0\ndrain 1\nsettle\nstep 0\nstep 0\nstep 0\nstep 1\nstep 1\nstep 1\nstep 1\nstep 1\nstep 2\nstep 2\nsettle\nstep 2\nstep 2\nstep 2\nstep 2\nstep 2\n",
        report: "mind 1\nthread 0 exit 0 out -\nthread 1 exit 0 out 00\nthread 2 exit 0 out 01\ncounts events 35 labels 29 takes 6 gives 3 downs 1 peak 2 splits 0 merges 0\n",
    },
    // S, zero_two.
    ReportRow {
        rack: THREE,
        programs: S,
        schedule: "step 1\nstep 1\nstep 1\nstep 1\nsettle\nstep 1\nsettle\ndrain 1\nstep 1\nstep 1\nstep 1\nstep 1\nstep 1\nstep 0\nstep 0\nstep 0\nstep 0\nstep 0\nsettle\nstep 0\nsettle\ndrain 0\ndrain 0\nstep 0\nstep 0\nstep 0\nstep 2\nstep 2\nsettle\nstep 2\nstep 2\nstep 2\nstep 2\nstep 2\n",
        report: "mind 1\nthread 0 exit 0 out -\nthread 1 exit 0 out 00\nthread 2 exit 0 out 02\ncounts events 34 labels 29 takes 5 gives 2 downs 1 peak 2 splits 0 merges 0\n",
    },
    // S, one_one.
    ReportRow {
        rack: THREE,
        programs: S,
        schedule: "step 0\nstep 0\nstep 0\nstep 0\nstep 0\nsettle\nstep 0\nsettle\ndrain 0\ndrain 0\nstep 0\nstep 0\nstep 0\nstep 1\nstep 1\nstep 1\nstep 1\nsettle\nstep 1\nsettle\ndrain 1\nstep 1\nstep 1\nstep 1\nstep 1\nstep 1\nstep 2\nstep 2\nsettle\nstep 2\nstep 2\nstep 2\nstep 2\nstep 2\n",
        report: "mind 1\nthread 0 exit 0 out -\nthread 1 exit 0 out 01\nthread 2 exit 0 out 01\ncounts events 34 labels 29 takes 5 gives 1 downs 2 peak 2 splits 0 merges 0\n",
    },
    // S, tries_one_two.
    ReportRow {
        rack: THREE,
        programs: S,
        schedule: "step 0\nstep 0\nstep 0\nstep 0\nstep 1\nstep 1\nstep 1\nstep 0\nsettle\nstep 0\nsettle\ndrain 0\nstep 1\nsettle\nstep 1\nsettle\ndrain 1\ndrain 0\nsettle\nstep 0\nstep 0\nstep 0\nstep 1\nstep 1\nstep 1\nstep 1\nstep 1\nstep 2\nstep 2\nsettle\nstep 2\nstep 2\nstep 2\nstep 2\nstep 2\n",
        report: "mind 1\nthread 0 exit 0 out -\nthread 1 exit 0 out 00\nthread 2 exit 0 out 01\ncounts events 35 labels 29 takes 6 gives 2 downs 2 peak 2 splits 0 merges 0\n",
    },
];

const R: &[&str] = &[
    "000012b7 00002337 00100393 0072a023 00732023 00000513 00200893 00000073",
    "000012b7 00002337 00200393 00732023 0002a503 00100893 00000073 00000513 00200893 00000073",
    "00002337 00032503 00100893 00000073 00000513 00200893 00000073",
];

static STORE_BEFORE_LOAD: [ReportRow; 4] = [
    // R, zero_one.
    ReportRow {
        rack: THREE,
        programs: R,
        schedule: "step 1\nstep 1\nstep 1\nstep 1\nsettle\nstep 1\nsettle\ndrain 1\nstep 1\nstep 1\nstep 1\nstep 1\nstep 1\nstep 0\nstep 0\nstep 0\nstep 0\nsettle\nstep 0\nsettle\ndrain 0\ndrain 0\nstep 0\nstep 0\nstep 0\nstep 2\nstep 2\nsettle\nstep 2\nstep 2\nstep 2\nstep 2\nstep 2\n",
        report: "mind 1\nthread 0 exit 0 out -\nthread 1 exit 0 out 00\nthread 2 exit 0 out 01\ncounts events 33 labels 28 takes 5 gives 2 downs 1 peak 2 splits 0 merges 0\n",
    },
    // R, zero_two.
    ReportRow {
        rack: THREE,
        programs: R,
        schedule: "step 0\nstep 0\nstep 0\nstep 1\nstep 1\nstep 1\nstep 1\nsettle\nstep 1\nsettle\nstep 0\nsettle\nstep 0\nsettle\ndrain 0\ndrain 0\ndrain 1\nsettle\nstep 0\nstep 0\nstep 0\nstep 1\nstep 1\nstep 1\nstep 1\nstep 1\nstep 2\nstep 2\nsettle\nstep 2\nstep 2\nstep 2\nstep 2\nstep 2\n",
        report: "mind 1\nthread 0 exit 0 out -\nthread 1 exit 0 out 00\nthread 2 exit 0 out 02\ncounts events 34 labels 28 takes 6 gives 3 downs 1 peak 2 splits 0 merges 0\n",
    },
    // R, one_one.
    ReportRow {
        rack: THREE,
        programs: R,
        schedule: "step 0\nstep 0\nstep 0\nstep 1\nstep 1\nstep 1\nstep 0\nsettle\ndrain 0\nstep 1\nsettle\ndrain 1\nstep 1\nsettle\nstep 0\nsettle\ndrain 0\nstep 0\nstep 0\nstep 0\nstep 1\nstep 1\nstep 1\nstep 1\nstep 1\nstep 2\nstep 2\nsettle\nstep 2\nstep 2\nstep 2\nstep 2\nstep 2\n",
        report: "mind 1\nthread 0 exit 0 out -\nthread 1 exit 0 out 01\nthread 2 exit 0 out 01\ncounts events 33 labels 28 takes 5 gives 1 downs 2 peak 2 splits 0 merges 0\n",
    },
    // R, one_two.
    ReportRow {
        rack: THREE,
        programs: R,
        schedule: "step 0\nstep 0\nstep 0\nstep 0\nsettle\nstep 0\nsettle\ndrain 0\ndrain 0\nstep 0\nstep 0\nstep 0\nstep 1\nstep 1\nstep 1\nstep 1\nsettle\nstep 1\nsettle\ndrain 1\nstep 1\nstep 1\nstep 1\nstep 1\nstep 1\nstep 2\nstep 2\nsettle\nstep 2\nstep 2\nstep 2\nstep 2\nstep 2\n",
        report: "mind 1\nthread 0 exit 0 out -\nthread 1 exit 0 out 01\nthread 2 exit 0 out 02\ncounts events 33 labels 28 takes 5 gives 1 downs 2 peak 2 splits 0 merges 0\n",
    },
];

const TWO_AND_TWO_WRITES: &[&str] = &[
    "000012b7 00002337 00100393 00200e13 0072a023 01c32023 00000513 00200893 00000073",
    "000012b7 00002337 00100393 00200e13 00732023 01c2a023 00000513 00200893 00000073",
    "000012b7 00002337 0002a403 00032483 00040513 00100893 00000073 00048513 00000073 00000513 00200893 00000073",
];

static STORES_AGAINST_STORES: [ReportRow; 5] = [
    // 2+2W, one_two.
    ReportRow {
        rack: THREE,
        programs: TWO_AND_TWO_WRITES,
        schedule: "step 1\nstep 1\nstep 1\nstep 1\nstep 1\nsettle\nstep 1\nsettle\ndrain 1\ndrain 1\nstep 1\nstep 1\nstep 1\nstep 0\nstep 0\nstep 0\nstep 0\nstep 0\nsettle\nstep 0\nsettle\ndrain 0\ndrain 0\nstep 0\nstep 0\nstep 0\nstep 2\nstep 2\nstep 2\nsettle\nstep 2\nsettle\nstep 2\nstep 2\nstep 2\nstep 2\nstep 2\nstep 2\nstep 2\nstep 2\n",
        report: "mind 1\nthread 0 exit 0 out -\nthread 1 exit 0 out -\nthread 2 exit 0 out 0102\ncounts events 40 labels 34 takes 6 gives 2 downs 2 peak 2 splits 0 merges 0\n",
    },
    // 2+2W, two_one.
    ReportRow {
        rack: THREE,
        programs: TWO_AND_TWO_WRITES,
        schedule: "step 0\nstep 0\nstep 0\nstep 0\nstep 0\nsettle\nstep 0\nsettle\ndrain 0\ndrain 0\nstep 0\nstep 0\nstep 0\nstep 1\nstep 1\nstep 1\nstep 1\nstep 1\nsettle\nstep 1\nsettle\ndrain 1\ndrain 1\nstep 1\nstep 1\nstep 1\nstep 2\nstep 2\nstep 2\nsettle\nstep 2\nsettle\nstep 2\nstep 2\nstep 2\nstep 2\nstep 2\nstep 2\nstep 2\nstep 2\n",
        report: "mind 1\nthread 0 exit 0 out -\nthread 1 exit 0 out -\nthread 2 exit 0 out 0201\ncounts events 40 labels 34 takes 6 gives 2 downs 2 peak 2 splits 0 merges 0\n",
    },
    // 2+2W, two_two.
    ReportRow {
        rack: THREE,
        programs: TWO_AND_TWO_WRITES,
        schedule: "step 0\nstep 0\nstep 0\nstep 0\nstep 1\nstep 1\nstep 1\nstep 1\nstep 0\nsettle\nstep 0\nsettle\nstep 1\nsettle\nstep 1\nsettle\ndrain 0\nsettle\ndrain 1\ndrain 1\nsettle\ndrain 0\nsettle\nstep 0\nstep 0\nstep 0\nstep 1\nstep 1\nstep 1\nstep 2\nstep 2\nstep 2\nsettle\nstep 2\nsettle\nstep 2\nstep 2\nstep 2\nstep 2\nstep 2\nstep 2\nstep 2\nstep 2\n",
        report: "mind 1\nthread 0 exit 0 out -\nthread 1 exit 0 out -\nthread 2 exit 0 out 0202\ncounts events 43 labels 34 takes 9 gives 5 downs 2 peak 2 splits 0 merges 0\n",
    },
    // 2+2W, tries_both_one.
    ReportRow {
        rack: THREE,
        programs: TWO_AND_TWO_WRITES,
        schedule: "step 0\nstep 0\nstep 0\nstep 0\nstep 1\nstep 1\nstep 1\nstep 1\nstep 0\nsettle\nstep 0\nsettle\nstep 1\nsettle\nstep 1\nsettle\ndrain 1\ndrain 1\ndrain 0\nsettle\ndrain 0\nsettle\nstep 0\nstep 0\nstep 0\nstep 1\nstep 1\nstep 1\nstep 2\nstep 2\nstep 2\nsettle\nstep 2\nsettle\nstep 2\nstep 2\nstep 2\nstep 2\nstep 2\nstep 2\nstep 2\nstep 2\n",
        report: "mind 1\nthread 0 exit 0 out -\nthread 1 exit 0 out -\nthread 2 exit 0 out 0102\ncounts events 42 labels 34 takes 8 gives 4 downs 2 peak 2 splits 0 merges 0\n",
    },
    // 2+2W, tries_both_one_in_turn.
    ReportRow {
        rack: THREE,
        programs: TWO_AND_TWO_WRITES,
        schedule: "step 0\nstep 0\nstep 0\nstep 0\nstep 1\nstep 1\nstep 1\nstep 1\nstep 0\nsettle\nstep 0\nsettle\nstep 1\nsettle\nstep 1\nsettle\ndrain 0\nsettle\ndrain 1\ndrain 0\nsettle\ndrain 1\nsettle\nstep 0\nstep 0\nstep 0\nstep 1\nstep 1\nstep 1\nstep 2\nstep 2\nstep 2\nsettle\nstep 2\nsettle\nstep 2\nstep 2\nstep 2\nstep 2\nstep 2\nstep 2\nstep 2\nstep 2\n",
        report: "mind 1\nthread 0 exit 0 out -\nthread 1 exit 0 out -\nthread 2 exit 0 out 0202\ncounts events 43 labels 34 takes 9 gives 5 downs 2 peak 2 splits 0 merges 0\n",
    },
];

const N6: &[&str] = &[
    "000012b7 00002337 00100393 0072a023 0002a403 00032483 00040513 00100893 00000073 00048513 00000073 00000513 00200893 00000073",
    "000012b7 00002337 00200393 00732023 0072a023 00000513 00200893 00000073",
    "000012b7 0002a503 00100893 00000073 00000513 00200893 00000073",
];

static OWN_STORE_EARLY: [ReportRow; 6] = [
    // n6, one_zero_one.
    ReportRow {
        rack: THREE,
        programs: N6,
        schedule: "step 0\nstep 0\nstep 0\nstep 1\nstep 1\nstep 1\nstep 0\nsettle\nstep 0\nstep 0\nsettle\nstep 1\nsettle\nstep 1\nsettle\ndrain 1\ndrain 1\ndrain 0\nsettle\nstep 0\nstep 0\nstep 0\nstep 0\nstep 0\nstep 0\nstep 0\nstep 0\nstep 1\nstep 1\nstep 1\nstep 2\nstep 2\nsettle\nstep 2\nstep 2\nstep 2\nstep 2\nstep 2\n",
        report: "mind 1\nthread 0 exit 0 out 0100\nthread 1 exit 0 out -\nthread 2 exit 0 out 01\ncounts events 38 labels 32 takes 6 gives 3 downs 1 peak 2 splits 0 merges 0\n",
    },
    // n6, one_zero_one_deliveries.
    ReportRow {
        rack: THREE,
        programs: N6,
        schedule: "step 0\nstep 0\nstep 0\nstep 1\nstep 1\nstep 1\nstep 0\ndeliver u0 0\ndeliver t0 0\ndeliver f0 0\ndeliver d0 0\nstep 0\nstep 0\ndeliver u0 0\ndeliver t0 0\ndeliver f0 0\ndeliver d0 0\nstep 1\ndeliver u1 0\ndeliver d0 0\ndeliver u0 0\ndeliver t0 0\ndeliver f0 0\ndeliver d1 0\nstep 1\ndeliver u1 0\ndeliver d0 0\ndeliver u0 0\ndeliver t0 0\ndeliver f0 0\ndeliver d1 0\ndrain 1\ndrain 1\ndrain 0\ndeliver u0 0\ndeliver d1 0\ndeliver u1 0\ndeliver u1 0\ndeliver t0 0\ndeliver t0 0\ndeliver f0 0\ndeliver d0 0\nstep 0\nstep 0\nstep 0\nstep 0\nstep 0\nstep 0\nstep 0\nstep 0\nstep 1\nstep 1\nstep 1\nstep 2\nstep 2\ndeliver u2 0\ndeliver d0 0\ndeliver u0 0\ndeliver u0 0\ndeliver t0 0\ndeliver t0 0\ndeliver f0 0\ndeliver d2 0\nstep 2\nstep 2\nstep 2\nstep 2\nstep 2\n",
        report: "mind 1\nthread 0 exit 0 out 0100\nthread 1 exit 0 out -\nthread 2 exit 0 out 01\ncounts events 68 labels 32 takes 6 gives 3 downs 1 peak 2 splits 0 merges 0\n",
    },
    // n6, one_zero_two.
    ReportRow {
        rack: THREE,
        programs: N6,
        schedule: "step 0\nstep 0\nstep 0\nstep 0\nsettle\nstep 0\nstep 0\nsettle\ndrain 0\nstep 0\nstep 0\nstep 0\nstep 0\nstep 0\nstep 0\nstep 0\nstep 0\nstep 1\nstep 1\nstep 1\nstep 1\nsettle\nstep 1\nsettle\ndrain 1\ndrain 1\nstep 1\nstep 1\nstep 1\nstep 2\nstep 2\nsettle\nstep 2\nstep 2\nstep 2\nstep 2\nstep 2\n",
        report: "mind 1\nthread 0 exit 0 out 0100\nthread 1 exit 0 out -\nthread 2 exit 0 out 02\ncounts events 37 labels 32 takes 5 gives 2 downs 1 peak 2 splits 0 merges 0\n",
    },
    // n6, one_two_one.
    ReportRow {
        rack: THREE,
        programs: N6,
        schedule: "step 1\nstep 1\nstep 1\nstep 1\nsettle\nstep 1\nsettle\ndrain 1\ndrain 1\nstep 1\nstep 1\nstep 1\nstep 0\nstep 0\nstep 0\nstep 0\nsettle\nstep 0\nstep 0\nsettle\ndrain 0\nstep 0\nstep 0\nstep 0\nstep 0\nstep 0\nstep 0\nstep 0\nstep 0\nstep 2\nstep 2\nsettle\nstep 2\nstep 2\nstep 2\nstep 2\nstep 2\n",
        report: "mind 1\nthread 0 exit 0 out 0102\nthread 1 exit 0 out -\nthread 2 exit 0 out 01\ncounts events 37 labels 32 takes 5 gives 1 downs 2 peak 2 splits 0 merges 0\n",
    },
    // n6, one_two_two.
    ReportRow {
        rack: THREE,
        programs: N6,
        schedule: "step 0\nstep 0\nstep 0\nstep 1\nstep 1\nstep 1\nstep 0\nsettle\ndrain 0\nstep 0\nstep 1\nsettle\nstep 1\nsettle\ndrain 1\ndrain 1\nstep 0\nsettle\nstep 0\nstep 0\nstep 0\nstep 0\nstep 0\nstep 0\nstep 0\nstep 0\nstep 1\nstep 1\nstep 1\nstep 2\nstep 2\nsettle\nstep 2\nstep 2\nstep 2\nstep 2\nstep 2\n",
        report: "mind 1\nthread 0 exit 0 out 0102\nthread 1 exit 0 out -\nthread 2 exit 0 out 02\ncounts events 37 labels 32 takes 5 gives 1 downs 2 peak 2 splits 0 merges 0\n",
    },
    // n6, two_two_two.
    ReportRow {
        rack: THREE,
        programs: N6,
        schedule: "step 0\nstep 0\nstep 0\nstep 1\nstep 1\nstep 1\nstep 0\nsettle\ndrain 0\nstep 1\nsettle\nstep 1\nsettle\ndrain 1\ndrain 1\nstep 0\nsettle\nstep 0\nsettle\nstep 0\nstep 0\nstep 0\nstep 0\nstep 0\nstep 0\nstep 0\nstep 0\nstep 1\nstep 1\nstep 1\nstep 2\nstep 2\nsettle\nstep 2\nstep 2\nstep 2\nstep 2\nstep 2\n",
        report: "mind 1\nthread 0 exit 0 out 0202\nthread 1 exit 0 out -\nthread 2 exit 0 out 02\ncounts events 38 labels 32 takes 6 gives 1 downs 2 peak 2 splits 0 merges 0\n",
    },
];

#[test]
fn each_allowed_order_of_stores_is_reached(rt: HostRuntime) -> Result<(), Fail> {
    all_report(rt.alloc(), &STORE_BEHIND_LOAD)?;
    all_report(rt.alloc(), &STORE_BEFORE_LOAD)?;
    all_report(rt.alloc(), &STORES_AGAINST_STORES)?;
    all_report(rt.alloc(), &OWN_STORE_EARLY)?;
    Ok(())
}
