//! Which files are read, in which order, and in how many pieces the text is written.
use crate::tests::calls::PUTS_A;
use sample_runs::{CHECK, Files, JOURNAL, RUN, call};
use std::alloc::Global;
use std::process::Abort;
use std::test::Fail;

/// Two images.
const RACK: &str =
    "format = 1\nslots = 4\nprotect = 8\noutliers = 2\nregion = 0\nmost = 9\nthreshold = 0\nblade = [{ frames = 2 }]\nmemory = [{ spare = 4, homes = [{ domain = 0, page = 0, pages = 16 }] }]\nimage = [{ name = \"a.bin\", at = 0 }, { name = \"b.bin\", at = 0 }]\nthread = [{ blade = 0, domain = 0, image = 1, queue = 2 }]\n";

/// The words, the files (of which one may be left out), the reads with their limits, the text that is
/// written, and in how many pieces.
struct Row {
    words: &'static [&'static str],
    left_out: &'static str,
    rack: &'static str,
    image: &'static [u8],
    schedule: &'static str,
    journal: &'static str,
    asked: &'static str,
    text: &'static str,
    pieces: u32,
}

const NOTHING_RAN: &str =
    "mind 1\nthread 0 running 00000000 out -\ncounts events 0 labels 0 takes 0 gives 0 downs 0 peak 0 splits 0 merges 0\n";

static ROWS: [Row; 13] = [
    Row {
        words: &RUN,
        left_out: "",
        rack: RACK,
        image: PUTS_A,
        schedule: "",
        journal: "",
        asked: "r.toml 65536\na.bin 65536\nb.bin 65536\ns.txt 4194304\n",
        text: NOTHING_RAN,
        pieces: 1,
    },
    Row {
        words: &JOURNAL,
        left_out: "",
        rack: RACK,
        image: PUTS_A,
        schedule: "step 0\n",
        journal: "",
        asked: "r.toml 65536\na.bin 65536\nb.bin 65536\ns.txt 4194304\n",
        text: "mind journal 1\ne 0\nx 0\n",
        pieces: 1,
    },
    Row {
        words: &CHECK,
        left_out: "",
        rack: RACK,
        image: PUTS_A,
        schedule: "",
        journal: "mind journal 1\n",
        asked: "r.toml 65536\na.bin 65536\nb.bin 65536\ns.txt 4194304\nj.txt 268435456\n",
        text: NOTHING_RAN,
        pieces: 1,
    },
    Row {
        words: &CHECK,
        left_out: "",
        rack: RACK,
        image: PUTS_A,
        schedule: "",
        journal: "mind journal 1\nd 0\n",
        asked: "r.toml 65536\na.bin 65536\nb.bin 65536\ns.txt 4194304\nj.txt 268435456\n",
        text: "not a run: label 0\n",
        pieces: 1,
    },
    // Behind a refused rack no image is read.
    Row {
        words: &RUN,
        left_out: "",
        rack: "format =",
        image: PUTS_A,
        schedule: "",
        journal: "",
        asked: "r.toml 65536\n",
        text: "refused rack toml\n",
        pieces: 1,
    },
    // Six bytes: behind the first image the second is not read.
    Row {
        words: &RUN,
        left_out: "",
        rack: RACK,
        image: b"\x13\x05\x10\x04\x13\x05",
        schedule: "",
        journal: "",
        asked: "r.toml 65536\na.bin 65536\n",
        text: "refused image length 0\n",
        pieces: 1,
    },
    // Behind a missing image the schedule is not read, and nothing is written.
    Row {
        words: &RUN,
        left_out: "b.bin",
        rack: RACK,
        image: PUTS_A,
        schedule: "step 64\n",
        journal: "",
        asked: "r.toml 65536\na.bin 65536\nb.bin 65536\n",
        text: "",
        pieces: 0,
    },
    // Behind a refused schedule the journal is not read.
    Row {
        words: &CHECK,
        left_out: "",
        rack: RACK,
        image: PUTS_A,
        schedule: "step 64\n",
        journal: "",
        asked: "r.toml 65536\na.bin 65536\nb.bin 65536\ns.txt 4194304\n",
        text: "refused schedule range 1\n",
        pieces: 1,
    },
    Row {
        words: &CHECK,
        left_out: "",
        rack: RACK,
        image: PUTS_A,
        schedule: "",
        journal: "",
        asked: "r.toml 65536\na.bin 65536\nb.bin 65536\ns.txt 4194304\nj.txt 268435456\n",
        text: "refused journal head\n",
        pieces: 1,
    },
    // A schedule is made of the rack alone.
    Row {
        words: &["make", "r.toml", "0", "0"],
        left_out: "a.bin",
        rack: RACK,
        image: PUTS_A,
        schedule: "",
        journal: "",
        asked: "r.toml 65536\n",
        text: "settle\n",
        pieces: 1,
    },
    // No schedule is read where one is made and run.
    Row {
        words: &["load", "r.toml", "0", "0"],
        left_out: "s.txt",
        rack: RACK,
        image: PUTS_A,
        schedule: "",
        journal: "",
        asked: "r.toml 65536\na.bin 65536\nb.bin 65536\n",
        text: "mind 1\nthread 0 running 00000000 out -\ncounts events 1 labels 0 takes 0 gives 0 downs 0 peak 0 splits 0 merges 0\n",
        pieces: 1,
    },
    Row {
        words: &["load", "r.toml", "0", "0"],
        left_out: "b.bin",
        rack: RACK,
        image: PUTS_A,
        schedule: "",
        journal: "",
        asked: "r.toml 65536\na.bin 65536\nb.bin 65536\n",
        text: "",
        pieces: 0,
    },
    // Words of no form read nothing.
    Row {
        words: &["run", "r.toml"],
        left_out: "",
        rack: RACK,
        image: PUTS_A,
        schedule: "",
        journal: "",
        asked: "",
        text: "usage: mind run RACK SCHEDULE | journal RACK SCHEDULE | check RACK SCHEDULE JOURNAL | make RACK COUNT SEED | load RACK COUNT SEED | asm TEXT | dis IMAGE\n",
        pieces: 1,
    },
];

fn put_unless(files: &mut Files, left_out: &str, name: &str, bytes: &[u8]) -> Result<(), Fail> {
    if name == left_out {
        return Ok(());
    }
    files.put(name, bytes)
}

fn files_of(alloc: Global, row: &Row) -> Result<Files, Fail> {
    let mut files = Files::new(alloc);
    put_unless(&mut files, row.left_out, "r.toml", row.rack.as_bytes())?;
    put_unless(&mut files, row.left_out, "a.bin", row.image)?;
    put_unless(&mut files, row.left_out, "b.bin", row.image)?;
    put_unless(&mut files, row.left_out, "s.txt", row.schedule.as_bytes())?;
    put_unless(&mut files, row.left_out, "j.txt", row.journal.as_bytes())?;
    Ok(files)
}

fn asks<R: Abort + AllocGlobal>(rt: &R, row: &Row) -> Result<(), Fail> {
    let files = files_of(rt.alloc(), row)?;
    let ran = call(rt.alloc(), row.words, files, 4096)?;
    assert!(rt;
        ran.asked.as_slice() == row.asked.as_bytes(),
        "{}",
        row.asked
    );
    assert!(rt; ran.text.as_slice() == row.text.as_bytes(), "{}", row.text);
    assert!(rt; ran.pieces == row.pieces);
    Ok(())
}

#[test]
fn each_input_is_judged_before_the_next_is_read(rt: HostRuntime) -> Result<(), Fail> {
    for row in &ROWS {
        asks(&rt, row)?;
    }
    Ok(())
}
