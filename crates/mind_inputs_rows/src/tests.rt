//! The inputs of a check, from files in memory.
use mind_base::{Log, MemStore, Name};
use mind_inputs::{Loaded, Stopped, load_for_check};
use std::alloc::Global;
use std::process::Abort;
use std::test::Fail;

/// Files behind one rack file, the name of one that is left out, and what is said of them.
struct Row {
    left_out: &'static str,
    image: &'static [u8],
    schedule: &'static [u8],
    journal: &'static [u8],
    said: &'static [u8],
}

const RACK: &[u8] =
    b"format = 1\nslots = 4\nprotect = 8\noutliers = 2\nregion = 0\nmost = 9\nthreshold = 0\nblade = [{ frames = 2 }]\nmemory = [{ spare = 4, homes = [{ domain = 0, page = 0, pages = 16 }] }]\nimage = [{ name = \"a.bin\", at = 0 }]\nthread = [{ blade = 0, domain = 0, image = 0, queue = 2 }]\n";

// lw x10,0(x5)
const LOADS: &[u8] = b"\x03\xa5\x02\x00";

const SCHEDULE: &[u8] = b"step 0\ndrain 0\n";

const JOURNAL: &[u8] = b"mind journal 1\ne 0\nx 0\ne 1\n";

static ROWS: [Row; 8] = [
    Row {
        left_out: "",
        image: LOADS,
        schedule: SCHEDULE,
        journal: JOURNAL,
        said: b"accepted\n",
    },
    Row {
        left_out: "r.toml",
        image: LOADS,
        schedule: SCHEDULE,
        journal: JOURNAL,
        said: b"missing\n",
    },
    // The image is missing, and the schedule behind it would be refused.
    Row {
        left_out: "a.bin",
        image: b"",
        schedule: b"step 64\n",
        journal: JOURNAL,
        said: b"missing\n",
    },
    // The schedule is refused before the journal is.
    Row {
        left_out: "",
        image: LOADS,
        schedule: b"step 64\n",
        journal: b"",
        said: b"refused schedule range 1\n",
    },
    Row {
        left_out: "",
        image: LOADS,
        schedule: b"map 0 3 1 rw\n",
        journal: JOURNAL,
        said: b"refused schedule early\n",
    },
    Row {
        left_out: "j.txt",
        image: LOADS,
        schedule: SCHEDULE,
        journal: b"",
        said: b"missing\n",
    },
    Row {
        left_out: "",
        image: LOADS,
        schedule: SCHEDULE,
        journal: b"mind journal 2\n",
        said: b"refused journal head\n",
    },
    Row {
        left_out: "",
        image: LOADS,
        schedule: SCHEDULE,
        journal: b"mind journal 1\ne 0\nx 64\n",
        said: b"refused journal line 3\n",
    },
];

fn put(
    alloc: Global,
    files: &mut Vec<(Name, Vec<u8>)>,
    row: &Row,
    name: &str,
    bytes: &[u8],
) -> Result<(), Fail> {
    if name == row.left_out {
        return Ok(());
    }
    let name = Name::of(alloc, name)?.ok_or("no name")?;
    files.push((name, bytes.to_vec(alloc)?))?;
    Ok(())
}

fn store_of(alloc: Global, row: &Row) -> Result<MemStore, Fail> {
    let mut files = Vec::new(alloc);
    put(alloc, &mut files, row, "r.toml", RACK)?;
    put(alloc, &mut files, row, "a.bin", row.image)?;
    put(alloc, &mut files, row, "s.txt", row.schedule)?;
    put(alloc, &mut files, row, "j.txt", row.journal)?;
    Ok(MemStore::new(files, Vec::new(alloc)))
}

/// The line of a refusal, or a word for what else ends the reading.
fn said_of(alloc: Global, answer: Result<(Loaded, Log), Stopped>) -> Result<Vec<u8>, Fail> {
    match answer {
        Ok(_) => Ok(Vec::from_slice(alloc, b"accepted\n")?),
        Err(Stopped::Refused { refusal }) => Ok(refusal.line(alloc)?),
        Err(Stopped::ReadFault) => Ok(Vec::from_slice(alloc, b"missing\n")?),
        Err(Stopped::NoMemory) => Err(Fail::from("no memory")),
    }
}

#[test]
fn the_first_input_that_is_missing_or_refused(rt: HostRuntime) -> Result<(), Fail> {
    let alloc = rt.alloc();
    for row in &ROWS {
        let mut store = store_of(alloc, row)?;
        let answer = load_for_check(alloc, &mut store, "r.toml", "s.txt", "j.txt");
        let said = said_of(alloc, answer)?;
        assert!(rt; said.as_slice() == row.said);
    }
    Ok(())
}
