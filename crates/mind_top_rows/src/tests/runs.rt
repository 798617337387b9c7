//! Runs and their reports, and inputs that are refused.
use crate::tests::calls::{PUTS_A, RACK, SIX_STEPS, expect, files_of};
use mind_base::Note;
use mind_top::Status;
use sample_runs::RUN;
use std::process::Abort;
use std::test::Fail;

/// The files of a run, and how it ends.
struct Row {
    rack: &'static str,
    image: &'static [u8],
    schedule: &'static str,
    status: Status,
    text: &'static str,
}

pub const TWO_THREADS: &str =
    "format = 1\nslots = 4\nprotect = 8\noutliers = 2\nregion = 0\nmost = 9\nthreshold = 0\n[[blade]]\nframes = 2\n[[blade]]\nframes = 2\n[[memory]]\nspare = 4\nhomes = [{ domain = 0, page = 0, pages = 16 }]\n[[memory]]\nspare = 4\nhomes = [{ domain = 0, page = 16, pages = 16 }]\n[[image]]\nname = \"a.bin\"\nat = 0\n[[thread]]\nblade = 0\ndomain = 0\nimage = 0\nqueue = 2\n[[thread]]\nblade = 1\ndomain = 0\nimage = 0\nqueue = 2\n[[map]]\ndomain = 0\npage = 1\npages = 2\nperm = \"rw\"\n";

static RUNS: [Row; 8] = [
    // A byte is put.
    Row {
        rack: RACK,
        image: PUTS_A,
        schedule: SIX_STEPS,
        status: Status::Done,
        text: "mind 1\nthread 0 exit 0 out 41\ncounts events 6 labels 6 takes 0 gives 0 downs 0 peak 0 splits 0 merges 0\n",
    },
    // The same in rounds, of four events each.
    Row {
        rack: RACK,
        image: PUTS_A,
        schedule: "run 6\n",
        status: Status::Done,
        text: "mind 1\nthread 0 exit 0 out 41\ncounts events 24 labels 6 takes 0 gives 0 downs 0 peak 0 splits 0 merges 0\n",
    },
    // Nothing runs under an empty schedule.
    Row {
        rack: RACK,
        image: PUTS_A,
        schedule: "",
        status: Status::Done,
        text: "mind 1\nthread 0 running 00000000 out -\ncounts events 0 labels 0 takes 0 gives 0 downs 0 peak 0 splits 0 merges 0\n",
    },
    // A jump to 6.
    Row {
        rack: RACK,
        image: b"\x67\x00\x60\x00",
        schedule: "step 0\n",
        status: Status::Done,
        text: "mind 1\nthread 0 fault target 00000006 at 00000000 out -\ncounts events 1 labels 1 takes 0 gives 0 downs 0 peak 0 splits 0 merges 0\n",
    },
    // A word that spells no instruction; a thread that has ended does nothing more.
    Row {
        rack: RACK,
        image: b"\x00\x00\x00\x00",
        schedule: "step 0\nstep 0\n",
        status: Status::Done,
        text: "mind 1\nthread 0 fault illegal 00000000 at 00000000 out -\ncounts events 2 labels 1 takes 0 gives 0 downs 0 peak 0 splits 0 merges 0\n",
    },
    // addi x1,x0,1, and then the end of the image.
    Row {
        rack: RACK,
        image: b"\x93\x00\x10\x00",
        schedule: "step 0\nstep 0\n",
        status: Status::Done,
        text: "mind 1\nthread 0 fault fetch 00000004 at 00000004 out -\ncounts events 2 labels 2 takes 0 gives 0 downs 0 peak 0 splits 0 merges 0\n",
    },
    // ebreak, among events that find nothing to change.
    Row {
        rack: RACK,
        image: b"\x73\x00\x10\x00",
        schedule: "# a comment\r\ndrain 0\nstep 0\nevict 0 0 1\n\tdeliver u0 0x0\nlose d1a 3\nrepeat t0 0\nresend f1\nepoch",
        status: Status::Done,
        text: "mind 1\nthread 0 fault break 00000000 at 00000000 out -\ncounts events 8 labels 1 takes 0 gives 0 downs 0 peak 0 splits 0 merges 0\n",
    },
    // Two threads.
    Row {
        rack: TWO_THREADS,
        image: b"\x93\x00\x10\x00",
        schedule: "step 1\nstep 0\nstep 1\n",
        status: Status::Done,
        text: "mind 1\nthread 0 running 00000004 out -\nthread 1 fault fetch 00000004 at 00000004 out -\ncounts events 3 labels 3 takes 0 gives 0 downs 0 peak 0 splits 0 merges 0\n",
    },
];

static REFUSALS: [Row; 8] = [
    // No TOML; the rack is judged before all else.
    Row {
        rack: "format =",
        image: b"",
        schedule: "step 64\n",
        status: Status::Malformed,
        text: "refused rack toml\n",
    },
    // A blade without frames.
    Row {
        rack: "format = 1\nslots = 4\nprotect = 8\noutliers = 2\nregion = 0\nmost = 9\nthreshold = 0\n[[blade]]\nframes = 0\n[[blade]]\nframes = 2\n[[memory]]\nspare = 4\nhomes = [{ domain = 0, page = 0, pages = 16 }]\n[[memory]]\nspare = 4\nhomes = [{ domain = 0, page = 16, pages = 16 }]\n[[image]]\nname = \"a.bin\"\nat = 0\n[[thread]]\nblade = 0\ndomain = 0\nimage = 0\nqueue = 2\n[[map]]\ndomain = 0\npage = 1\npages = 2\nperm = \"rw\"\n",
        image: PUTS_A,
        schedule: SIX_STEPS,
        status: Status::Malformed,
        text: "refused rack limit blade.0.frames\n",
    },
    // Homes that meet.
    Row {
        rack: "format = 1\nslots = 4\nprotect = 8\noutliers = 2\nregion = 0\nmost = 9\nthreshold = 0\n[[blade]]\nframes = 2\n[[blade]]\nframes = 2\n[[memory]]\nspare = 4\nhomes = [{ domain = 0, page = 0, pages = 16 }]\n[[memory]]\nspare = 4\nhomes = [{ domain = 0, page = 8, pages = 16 }]\n[[image]]\nname = \"a.bin\"\nat = 0\n[[thread]]\nblade = 0\ndomain = 0\nimage = 0\nqueue = 2\n[[map]]\ndomain = 0\npage = 1\npages = 2\nperm = \"rw\"\n",
        image: PUTS_A,
        schedule: SIX_STEPS,
        status: Status::Malformed,
        text: "refused rack overlap memory.1.homes.0\n",
    },
    // A key that is not known.
    Row {
        rack: "color = 1\nformat = 1\nslots = 4\nprotect = 8\noutliers = 2\nregion = 0\nmost = 9\nthreshold = 0\n[[blade]]\nframes = 2\n[[blade]]\nframes = 2\n[[memory]]\nspare = 4\nhomes = [{ domain = 0, page = 0, pages = 16 }]\n[[memory]]\nspare = 4\nhomes = [{ domain = 0, page = 16, pages = 16 }]\n[[image]]\nname = \"a.bin\"\nat = 0\n[[thread]]\nblade = 0\ndomain = 0\nimage = 0\nqueue = 2\n[[map]]\ndomain = 0\npage = 1\npages = 2\nperm = \"rw\"\n",
        image: PUTS_A,
        schedule: SIX_STEPS,
        status: Status::Malformed,
        text: "refused rack unknown top\n",
    },
    // That key is found before the blade.
    Row {
        rack: "color = 1\nformat = 1\nslots = 4\nprotect = 8\noutliers = 2\nregion = 0\nmost = 9\nthreshold = 0\n[[blade]]\nframes = 0\n[[blade]]\nframes = 2\n[[memory]]\nspare = 4\nhomes = [{ domain = 0, page = 0, pages = 16 }]\n[[memory]]\nspare = 4\nhomes = [{ domain = 0, page = 16, pages = 16 }]\n[[image]]\nname = \"a.bin\"\nat = 0\n[[thread]]\nblade = 0\ndomain = 0\nimage = 0\nqueue = 2\n[[map]]\ndomain = 0\npage = 1\npages = 2\nperm = \"rw\"\n",
        image: PUTS_A,
        schedule: SIX_STEPS,
        status: Status::Malformed,
        text: "refused rack unknown top\n",
    },
    // Six bytes; the image is judged before the schedule.
    Row {
        rack: RACK,
        image: b"\x13\x05\x10\x04\x13\x05",
        schedule: "step 64\n",
        status: Status::Malformed,
        text: "refused image length 0\n",
    },
    // No such thread.
    Row {
        rack: RACK,
        image: PUTS_A,
        schedule: "step 64\n",
        status: Status::Malformed,
        text: "refused schedule range 1\n",
    },
    // A command, which is not there yet.
    Row {
        rack: RACK,
        image: PUTS_A,
        schedule: "step 0\nmap 0 3 1 rw\n",
        status: Status::Malformed,
        text: "refused schedule early\n",
    },
];

fn runs<R: Abort + AllocGlobal>(rt: &R, row: &Row) -> Result<(), Fail> {
    let files = files_of(rt.alloc(), row.rack, row.image, row.schedule)?;
    let _log = expect(rt, &RUN, files, 4096, row.status, row.text)?;
    Ok(())
}

#[test]
fn programs_and_their_reports(rt: HostRuntime) -> Result<(), Fail> {
    for row in &RUNS {
        runs(&rt, row)?;
    }
    Ok(())
}

#[test]
fn refused_inputs(rt: HostRuntime) -> Result<(), Fail> {
    for row in &REFUSALS {
        runs(&rt, row)?;
    }
    Ok(())
}

#[test]
fn the_log_of_a_run(rt: HostRuntime) -> Result<(), Fail> {
    let files = files_of(rt.alloc(), RACK, PUTS_A, "step 0\n")?;
    let log = expect(&rt, &RUN, files, 4096, Status::Done, ONE_STEP)?;
    assert!(rt; log.len() == 2);
    assert!(rt; log.get(0) == Note::Event { index: 0 });
    assert!(rt; log.get(1) == Note::Exec { hart: 0 });
    Ok(())
}

const ONE_STEP: &str =
    "mind 1\nthread 0 running 00000004 out -\ncounts events 1 labels 1 takes 0 gives 0 downs 0 peak 0 splits 0 merges 0\n";
