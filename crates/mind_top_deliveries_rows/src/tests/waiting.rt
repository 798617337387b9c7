//! Accesses that wait for their page, frames that are lost and repeated, pages that are given up and taken away.
use sample_runs::{JournalRow, ONE, ONE_SLOT, TWO, all_journal};
use std::test::Fail;

/// One thread that may use three pages, and a blade of two frames.
const THREE_PAGES: &str =
    "format = 1\nslots = 4\nprotect = 8\noutliers = 2\nregion = 0\nmost = 9\nthreshold = 0\n[[blade]]\nframes = 2\n[[blade]]\nframes = 2\n[[memory]]\nspare = 4\nhomes = [{ domain = 0, page = 0, pages = 16 }]\n[[memory]]\nspare = 4\nhomes = [{ domain = 0, page = 16, pages = 16 }]\n[[image]]\nname = \"p0.bin\"\nat = 0\n[[thread]]\nblade = 0\ndomain = 0\nimage = 0\nqueue = 2\n[[map]]\ndomain = 0\npage = 1\npages = 3\nperm = \"rw\"\n";

/// Two threads on one blade.
const ONE_BLADE: &str =
    "format = 1\nslots = 4\nprotect = 8\noutliers = 2\nregion = 0\nmost = 9\nthreshold = 0\n[[blade]]\nframes = 2\n[[blade]]\nframes = 2\n[[memory]]\nspare = 4\nhomes = [{ domain = 0, page = 0, pages = 16 }]\n[[memory]]\nspare = 4\nhomes = [{ domain = 0, page = 16, pages = 16 }]\n[[image]]\nname = \"p0.bin\"\nat = 0\n[[image]]\nname = \"p1.bin\"\nat = 0\n[[thread]]\nblade = 0\ndomain = 0\nimage = 0\nqueue = 2\n[[thread]]\nblade = 0\ndomain = 0\nimage = 1\nqueue = 2\n[[map]]\ndomain = 0\npage = 1\npages = 2\nperm = \"rw\"\n";

static WAITING: [JournalRow; 10] = [
    // A load waits for its page; the load behind it finds the page there.
    JournalRow {
        rack: ONE,
        programs: &["000012b7 0002a503 0002a503"],
        schedule: "step 0\nstep 0\ndeliver u0 0\ndeliver t0 0\ndeliver f0 0\ndeliver d0 0\nstep 0\n",
        report: "mind 1\nthread 0 running 0000000c out -\ncounts events 7 labels 3 takes 1 gives 0 downs 0 peak 1 splits 0 merges 0\n",
        journal: "mind journal 1\ne 0\nx 0\ne 1\ne 2\nr 0 1 0 i\nr 0 1 0 s 1\ne 3\ne 4\ne 5\nt 0 0 1 r\nx 0\ne 6\nx 0\n",
    },
    // A store waits for its page, and drains into it.
    JournalRow {
        rack: ONE,
        programs: &["000012b7 0002a023"],
        schedule: "step 0\nstep 0\ndeliver u0 0\ndeliver t0 0\ndeliver f0 0\ndeliver d0 0\ndrain 0\n",
        report: "mind 1\nthread 0 running 00000008 out -\ncounts events 7 labels 3 takes 1 gives 0 downs 0 peak 1 splits 0 merges 0\n",
        journal: "mind journal 1\ne 0\nx 0\ne 1\ne 2\nr 0 1 0 i\nr 0 1 0 m 0\ne 3\ne 4\ne 5\nt 0 0 1 w\nx 0\ne 6\nd 0\n",
    },
    // A load shares a page; a store of another blade takes it away, and drains.
    JournalRow {
        rack: TWO,
        programs: &["000012b7 0002a503 0002a503", "000012b7 0002a023"],
        schedule: "step 0\nstep 0\ndeliver u0 0\ndeliver t0 0\ndeliver f0 0\ndeliver d0 0\nstep 1\nstep 1\ndeliver u1 0\ndeliver d0 0\ndeliver u0 0\ndeliver t0 0\ndeliver f0 0\ndeliver d1 0\ndrain 1\n",
        report: "mind 1\nthread 0 running 00000008 out -\nthread 1 running 00000008 out -\ncounts events 15 labels 5 takes 2 gives 1 downs 0 peak 1 splits 0 merges 0\n",
        journal: "mind journal 1\ne 0\nx 0\ne 1\ne 2\nr 0 1 0 i\nr 0 1 0 s 1\ne 3\ne 4\ne 5\nt 0 0 1 r\nx 0\ne 6\nx 1\ne 7\ne 8\ne 9\ng 0 0 1\ne 10\nr 0 1 0 i\nr 0 1 0 m 1\ne 11\ne 12\ne 13\nt 1 0 1 w\nx 1\ne 14\nd 1\n",
    },
    // The frame of a request is lost, the wire is empty, and the request is sent again.
    JournalRow {
        rack: ONE,
        programs: &["000012b7 0002a503 0002a503"],
        schedule: "step 0\nstep 0\nlose u0 0\ndeliver u0 0\nresend u0\ndeliver u0 0\ndeliver u0a 0\ndeliver t0 0\ndeliver t0a 0\ndeliver f0 0\ndeliver d0 0\ndeliver d0a 0\ndeliver f0a 0\nstep 0\n",
        report: "mind 1\nthread 0 running 0000000c out -\ncounts events 14 labels 3 takes 1 gives 0 downs 0 peak 1 splits 0 merges 0\n",
        journal: "mind journal 1\ne 0\nx 0\ne 1\ne 2\ne 3\ne 4\ne 5\nr 0 1 0 i\nr 0 1 0 s 1\ne 6\ne 7\ne 8\ne 9\ne 10\nt 0 0 1 r\nx 0\ne 11\ne 12\ne 13\nx 0\n",
    },
    // A message is passed over repeated frames: a copy is handed over first, and the frame behind it is dropped.
    JournalRow {
        rack: TWO,
        programs: &[
            "000012b7 00002337 00100393 0072a023 00732023",
            "000012b7 00002337 0002a403 00032503 00100893 00000073 0002a503 00000073",
        ],
        schedule: "step 1\nstep 1\nstep 1\ndeliver u1 0\ndeliver u1a 0\ndeliver t0 0\ndeliver t0a 0\ndeliver f0 0\ndeliver d1 0\ndeliver d1a 0\ndeliver f0a 0\nstep 0\nstep 0\nstep 0\nstep 0\nrepeat u0 0\ndeliver u0 1\ndeliver u0 0\nrepeat d1 0\ndeliver d1 1\ndeliver u1 0\ndeliver u0a 0\ndeliver u0a 0\ndeliver u1a 0\ndeliver d1 0\ndeliver d1a 0\ndeliver d1a 0\ndeliver t0 0\ndeliver t0a 0\ndeliver f0 0\ndeliver d0 0\ndeliver d0a 0\ndeliver f0a 0\ndrain 0\nstep 0\ndeliver u0 0\ndeliver u0a 0\ndeliver t0 0\ndeliver t0a 0\ndeliver f0 0\ndeliver d0 0\ndeliver d0a 0\ndeliver f0a 0\ndrain 0\nstep 1\ndeliver u1 0\ndeliver d0 0\ndeliver u0 0\ndeliver u0 0\ndeliver u0a 0\ndeliver u0a 0\ndeliver d0a 0\ndeliver u1a 0\ndeliver t0 0\ndeliver t0 0\ndeliver t0a 0\ndeliver t0a 0\ndeliver f0 0\ndeliver d1 0\ndeliver d1a 0\ndeliver f0a 0\nstep 1\nstep 1\nstep 1\ndeliver u1 0\ndeliver d0 0\ndeliver u0 0\ndeliver u0 0\ndeliver u0a 0\ndeliver u0a 0\ndeliver d0a 0\ndeliver u1a 0\ndeliver t0 0\ndeliver t0 0\ndeliver t0a 0\ndeliver t0a 0\ndeliver f0 0\ndeliver d1 0\ndeliver d1a 0\ndeliver f0a 0\nstep 1\n",
        report: "mind 1\nthread 0 running 00000014 out -\nthread 1 running 00000020 out 0101\ncounts events 81 labels 15 takes 5 gives 1 downs 2 peak 2 splits 0 merges 0\n",
        journal: "mind journal 1\ne 0\nx 1\ne 1\nx 1\ne 2\ne 3\nr 0 1 0 i\nr 0 1 0 s 2\ne 4\ne 5\ne 6\ne 7\ne 8\nt 1 0 1 r\nx 1\ne 9\ne 10\ne 11\nx 0\ne 12\nx 0\ne 13\nx 0\ne 14\ne 15\ne 16\ne 17\ne 18\ne 19\ng 1 0 1\ne 20\nr 0 1 0 i\nr 0 1 0 m 0\ne 21\ne 22\ne 23\ne 24\ne 25\ne 26\ne 27\ne 28\ne 29\ne 30\nt 0 0 1 w\nx 0\ne 31\ne 32\ne 33\nd 0\ne 34\ne 35\nr 0 2 0 i\nr 0 2 0 m 0\ne 36\ne 37\ne 38\ne 39\ne 40\nt 0 0 2 w\nx 0\ne 41\ne 42\ne 43\nd 0\ne 44\ne 45\ne 46\nl 0 0 2\ne 47\ne 48\nr 0 2 0 s 1\nr 0 2 0 s 3\ne 49\ne 50\ne 51\ne 52\ne 53\ne 54\ne 55\ne 56\ne 57\ne 58\nt 1 0 2 r\nx 1\ne 59\ne 60\ne 61\nx 1\ne 62\nx 1\ne 63\ne 64\ne 65\nl 0 0 1\ne 66\ne 67\nr 0 1 0 s 1\nr 0 1 0 s 3\ne 68\ne 69\ne 70\ne 71\ne 72\ne 73\ne 74\ne 75\ne 76\ne 77\nt 1 0 1 r\nx 1\ne 78\ne 79\ne 80\nx 1\n",
    },
    // A store of another blade between LR and SC: SC gives 1.
    JournalRow {
        rack: TWO,
        programs: &[
            "000012b7 1002a3af 1872a52f 00100893 00000073",
            "000012b7 0002a023",
        ],
        schedule: "step 0\nstep 0\ndeliver u0 0\ndeliver u0a 0\ndeliver t0 0\ndeliver t0a 0\ndeliver f0 0\ndeliver d0 0\ndeliver d0a 0\ndeliver f0a 0\nstep 1\nstep 1\ndeliver u1 0\ndeliver d0 0\ndeliver u0 0\ndeliver u0a 0\ndeliver d0a 0\ndeliver u1a 0\ndeliver t0 0\ndeliver t0a 0\ndeliver f0 0\ndeliver d1 0\ndeliver d1a 0\ndeliver f0a 0\ndrain 1\nstep 0\ndeliver u0 0\ndeliver u0a 0\ndeliver d1 0\ndeliver u1 0\ndeliver u1 0\ndeliver u1a 0\ndeliver u1a 0\ndeliver d1a 0\ndeliver t0 0\ndeliver t0 0\ndeliver t0a 0\ndeliver t0a 0\ndeliver f0 0\ndeliver d0 0\ndeliver d0a 0\ndeliver f0a 0\nstep 0\nstep 0\n",
        report: "mind 1\nthread 0 running 00000014 out 01\nthread 1 running 00000008 out -\ncounts events 44 labels 8 takes 3 gives 2 downs 0 peak 1 splits 0 merges 0\n",
        journal: "mind journal 1\ne 0\nx 0\ne 1\ne 2\nr 0 1 0 i\nr 0 1 0 s 1\ne 3\ne 4\ne 5\ne 6\ne 7\nt 0 0 1 r\nx 0\ne 8\ne 9\ne 10\nx 1\ne 11\ne 12\ne 13\ng 0 0 1\ne 14\nr 0 1 0 i\nr 0 1 0 m 1\ne 15\ne 16\ne 17\ne 18\ne 19\ne 20\ne 21\nt 1 0 1 w\nx 1\ne 22\ne 23\ne 24\nd 1\ne 25\ne 26\ne 27\ne 28\ng 1 0 1\ne 29\ne 30\nr 0 1 0 i\nr 0 1 0 m 0\ne 31\ne 32\ne 33\ne 34\ne 35\ne 36\ne 37\ne 38\ne 39\nt 0 0 1 w\nx 0\ne 40\ne 41\ne 42\nx 0\ne 43\nx 0\n",
    },
    // The page is given up between LR and SC, and comes back as it was: SC gives 0.
    JournalRow {
        rack: ONE,
        programs: &["000012b7 1002a3af 1872a52f 00100893 00000073"],
        schedule: "step 0\nstep 0\ndeliver u0 0\ndeliver u0a 0\ndeliver t0 0\ndeliver t0a 0\ndeliver f0 0\ndeliver d0 0\ndeliver d0a 0\ndeliver f0a 0\nevict 0 0 1\nstep 0\ndeliver u0 0\ndeliver u0a 0\ndeliver t0 0\ndeliver t0a 0\ndeliver f0 0\ndeliver d0 0\ndeliver d0a 0\ndeliver f0a 0\nstep 0\nstep 0\n",
        report: "mind 1\nthread 0 running 00000014 out 00\ncounts events 22 labels 5 takes 2 gives 1 downs 0 peak 1 splits 0 merges 0\n",
        journal: "mind journal 1\ne 0\nx 0\ne 1\ne 2\nr 0 1 0 i\nr 0 1 0 s 1\ne 3\ne 4\ne 5\ne 6\ne 7\nt 0 0 1 r\nx 0\ne 8\ne 9\ne 10\ng 0 0 1\ne 11\ne 12\nr 0 1 0 m 0\ne 13\ne 14\ne 15\ne 16\ne 17\nt 0 0 1 w\nx 0\ne 18\ne 19\ne 20\nx 0\ne 21\nx 0\n",
    },
    // Two requests are lost and sent again. The second comes first, and waits; with the first both are handed over and
    // acknowledged, and then nothing is sent again.
    JournalRow {
        rack: ONE_BLADE,
        programs: &["000012b7 0002a503 0002a503", "000022b7 0002a503 0002a503"],
        schedule: "step 0\nstep 0\nstep 1\nstep 1\nlose u0 1\nlose u0 0\nresend u0\ndeliver u0 1\ndeliver u0 0\ndeliver u0a 0\ndeliver u0a 0\nresend u0\ndeliver u0 0\ndeliver t0 0\ndeliver t0 0\ndeliver f0 0\ndeliver f0 0\ndeliver d0 0\ndeliver d0 0\nstep 0\nstep 1\n",
        report: "mind 1\nthread 0 running 0000000c out -\nthread 1 running 0000000c out -\ncounts events 21 labels 6 takes 2 gives 0 downs 0 peak 2 splits 0 merges 0\n",
        journal: "mind journal 1\ne 0\nx 0\ne 1\ne 2\nx 1\ne 3\ne 4\ne 5\ne 6\ne 7\ne 8\nr 0 1 0 i\nr 0 1 0 s 1\nr 0 2 0 i\nr 0 2 0 s 1\ne 9\ne 10\ne 11\ne 12\ne 13\ne 14\ne 15\ne 16\ne 17\nt 0 0 1 r\nx 0\ne 18\nt 0 0 2 r\nx 1\ne 19\nx 0\ne 20\nx 1\n",
    },
    // Two frames and three pages: the least recently used page makes room, and comes back as it was written.
    JournalRow {
        rack: THREE_PAGES,
        programs: &[
            "000012b7 00002337 000033b7 04100413 00832023 0002a483 00032483 0003a483 0002a483 00032503 00100893 00000073",
        ],
        schedule: "step 0\nstep 0\nstep 0\nstep 0\nstep 0\ndeliver u0 0\ndeliver t0 0\ndeliver f0 0\ndeliver d0 0\ndrain 0\nstep 0\ndeliver u0 0\ndeliver t0 0\ndeliver f0 0\ndeliver d0 0\nstep 0\nstep 0\ndeliver u0 0\ndeliver t0 0\ndeliver f0 0\ndeliver d0 0\nstep 0\ndeliver u0 0\ndeliver t0 0\ndeliver f0 0\ndeliver d0 0\ndeliver u0 0\ndeliver t0 0\nstep 0\ndeliver u0 0\ndeliver t0 0\ndeliver f0 0\ndeliver d0 0\nstep 0\nstep 0\n",
        report: "mind 1\nthread 0 running 00000030 out 41\ncounts events 35 labels 13 takes 5 gives 3 downs 0 peak 3 splits 0 merges 0\n",
        journal: "mind journal 1\ne 0\nx 0\ne 1\nx 0\ne 2\nx 0\ne 3\nx 0\ne 4\ne 5\nr 0 2 0 i\nr 0 2 0 m 0\ne 6\ne 7\ne 8\nt 0 0 2 w\nx 0\ne 9\nd 0\ne 10\ne 11\nr 0 1 0 i\nr 0 1 0 s 1\ne 12\ne 13\ne 14\nt 0 0 1 r\nx 0\ne 15\nx 0\ne 16\ne 17\nr 0 3 0 i\nr 0 3 0 s 1\ne 18\ne 19\ne 20\ng 0 0 1\nt 0 0 3 r\nx 0\ne 21\ne 22\ne 23\ne 24\ne 25\ng 0 0 2\nt 0 0 1 r\nx 0\ne 26\ne 27\ne 28\ne 29\ne 30\ne 31\ne 32\ng 0 0 3\nt 0 0 2 r\nx 0\ne 33\nx 0\ne 34\nx 0\n",
    },
    // A directory of one entry: each page takes the place of the other.
    JournalRow {
        rack: ONE_SLOT,
        programs: &["000012b7 0002a503 0002a503", "000022b7 0002a503 0002a503"],
        schedule: "step 0\nstep 0\ndeliver u0 0\ndeliver u0a 0\ndeliver t0 0\ndeliver t0a 0\ndeliver f0 0\ndeliver d0 0\ndeliver d0a 0\ndeliver f0a 0\nstep 1\nstep 1\ndeliver u1 0\ndeliver d0 0\ndeliver u0 0\ndeliver u0a 0\ndeliver d0a 0\ndeliver u1a 0\ndeliver t0 0\ndeliver t0a 0\ndeliver f0 0\ndeliver d1 0\ndeliver d1a 0\ndeliver f0a 0\nstep 0\ndeliver u0 0\ndeliver u0a 0\ndeliver d1 0\ndeliver u1 0\ndeliver u1a 0\ndeliver d1a 0\ndeliver t0 0\ndeliver t0a 0\ndeliver f0 0\ndeliver d0 0\ndeliver d0a 0\ndeliver f0a 0\nstep 1\ndeliver u1 0\ndeliver d0 0\ndeliver u0 0\ndeliver u0a 0\ndeliver d0a 0\ndeliver u1a 0\ndeliver t0 0\ndeliver t0a 0\ndeliver f0 0\ndeliver d1 0\ndeliver d1a 0\ndeliver f0a 0\n",
        report: "mind 1\nthread 0 running 0000000c out -\nthread 1 running 0000000c out -\ncounts events 50 labels 6 takes 4 gives 3 downs 0 peak 1 splits 0 merges 0\n",
        journal: "mind journal 1\ne 0\nx 0\ne 1\ne 2\nr 0 1 0 i\nr 0 1 0 s 1\ne 3\ne 4\ne 5\ne 6\ne 7\nt 0 0 1 r\nx 0\ne 8\ne 9\ne 10\nx 1\ne 11\ne 12\ne 13\ng 0 0 1\ne 14\nr 0 1 0 i\no 0 1 0\nr 0 2 0 i\nr 0 2 0 s 2\ne 15\ne 16\ne 17\ne 18\ne 19\ne 20\ne 21\nt 1 0 2 r\nx 1\ne 22\ne 23\ne 24\ne 25\ne 26\ne 27\ng 1 0 2\ne 28\nr 0 2 0 i\no 0 2 0\nr 0 1 0 i\nr 0 1 0 s 1\ne 29\ne 30\ne 31\ne 32\ne 33\ne 34\nt 0 0 1 r\nx 0\ne 35\ne 36\ne 37\ne 38\ne 39\ng 0 0 1\ne 40\nr 0 1 0 i\no 0 1 0\nr 0 2 0 i\nr 0 2 0 s 2\ne 41\ne 42\ne 43\ne 44\ne 45\ne 46\ne 47\nt 1 0 2 r\nx 1\ne 48\ne 49\n",
    },
];

#[test]
fn accesses_wait_for_their_pages(rt: HostRuntime) -> Result<(), Fail> {
    all_journal(rt.alloc(), &WAITING)
}
