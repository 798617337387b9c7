//! Frames that are lost and repeated before the rack settles: what waits is performed once, and a second `settle` finds
//! nothing under way.
use crate::tests::settled::all_settle_once;
use sample_runs::{JournalRow, ONE, TWO, all_journal};
use std::test::Fail;

static LOST_AND_REPEATED: [JournalRow; 2] = [
    // A request is put twice on its wire and lost once, what is read at the memory blade is lost, and so is an
    // acknowledgement; the request is sent again, and dropped.
    JournalRow {
        rack: ONE,
        programs: &["000012b7 0002a503 0002a503"],
        schedule: "step 0\nstep 0\nrepeat u0 0\nlose u0 0\ndeliver u0 0\nlose t0 0\nlose u0a 0\nresend u0\nsettle\nsettle\nstep 0\n",
        report: "mind 1\nthread 0 running 0000000c out -\ncounts events 11 labels 3 takes 1 gives 0 downs 0 peak 1 splits 0 merges 0\n",
        journal: "mind journal 1\ne 0\nx 0\ne 1\ne 2\ne 3\ne 4\nr 0 1 0 i\nr 0 1 0 s 1\ne 5\ne 6\ne 7\ne 8\nt 0 0 1 r\nx 0\ne 9\ne 10\nx 0\n",
    },
    // A store takes a page away: the request is handed over once of twice, the order to give the page up is lost, sent again
    // and repeated, and the answer is lost.
    JournalRow {
        rack: TWO,
        programs: &["000012b7 0002a503 0002a503", "000012b7 0002a023"],
        schedule: "step 0\nstep 0\nsettle\nstep 1\nstep 1\nrepeat u1 0\ndeliver u1 0\ndeliver u1 0\nlose d0 0\nresend d0\nrepeat d0 0\ndeliver d0 0\nlose u0 0\nsettle\nsettle\ndrain 1\nsettle\n",
        report: "mind 1\nthread 0 running 00000008 out -\nthread 1 running 00000008 out -\ncounts events 17 labels 5 takes 2 gives 1 downs 0 peak 1 splits 0 merges 0\n",
        journal: "mind journal 1\ne 0\nx 0\ne 1\ne 2\nr 0 1 0 i\nr 0 1 0 s 1\nt 0 0 1 r\nx 0\ne 3\nx 1\ne 4\ne 5\ne 6\ne 7\ne 8\ne 9\ne 10\ne 11\ng 0 0 1\ne 12\ne 13\nr 0 1 0 i\nr 0 1 0 m 1\nt 1 0 1 w\nx 1\ne 14\ne 15\nd 1\ne 16\n",
    },
];

#[test]
fn what_is_lost_comes_when_the_rack_settles(rt: HostRuntime) -> Result<(), Fail> {
    all_journal(rt.alloc(), &LOST_AND_REPEATED)?;
    all_settle_once(&rt, &LOST_AND_REPEATED)
}
