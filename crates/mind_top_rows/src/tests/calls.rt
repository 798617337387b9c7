//! The program over files in memory: the files, and how a call ends.
use mind_base::Log;
use mind_top::Status;
use sample_runs::{Files, call};
use std::alloc::Global;
use std::process::Abort;
use std::test::Fail;

pub const RACK: &str =
    "format = 1\nslots = 4\nprotect = 8\noutliers = 2\nregion = 0\nmost = 9\nthreshold = 0\n[[blade]]\nframes = 2\n[[blade]]\nframes = 2\n[[memory]]\nspare = 4\nhomes = [{ domain = 0, page = 0, pages = 16 }]\n[[memory]]\nspare = 4\nhomes = [{ domain = 0, page = 16, pages = 16 }]\n[[image]]\nname = \"a.bin\"\nat = 0\n[[thread]]\nblade = 0\ndomain = 0\nimage = 0\nqueue = 2\n[[map]]\ndomain = 0\npage = 1\npages = 2\nperm = \"rw\"\n";

pub const SIX_STEPS: &str = "step 0\nstep 0\nstep 0\nstep 0\nstep 0\nstep 0\n";

// addi a0,x0,65; addi a7,x0,1; ecall; addi a0,x0,0; addi a7,x0,2; ecall
pub const PUTS_A: &[u8] =
    b"\x13\x05\x10\x04\x93\x08\x10\x00\x73\x00\x00\x00\x13\x05\x00\x00\x93\x08\x20\x00\x73\x00\x00\x00";

/// The journal of no event.
pub const EMPTY: &str = "mind journal 1\n";

pub const SIX_NOTED: &str =
    "mind journal 1\ne 0\nx 0\ne 1\nx 0\ne 2\nx 0\ne 3\nx 0\ne 4\nx 0\ne 5\nx 0\n";

pub fn files_of(alloc: Global, rack: &str, image: &[u8], schedule: &str) -> Result<Files, Fail> {
    let mut files = Files::new(alloc);
    files.put("r.toml", rack.as_bytes())?;
    files.put("a.bin", image)?;
    files.put("s.txt", schedule.as_bytes())?;
    Ok(files)
}

/// The files of a check of a program that puts a byte.
pub fn files_with(alloc: Global, schedule: &str, journal: &str) -> Result<Files, Fail> {
    let mut files = files_of(alloc, RACK, PUTS_A, schedule)?;
    files.put("j.txt", journal.as_bytes())?;
    Ok(files)
}

/// Runs the words over the files, with this room for output.
pub fn expect<R: Abort + AllocGlobal>(
    rt: &R,
    words: &[&str],
    files: Files,
    room: u32,
    status: Status,
    text: &str,
) -> Result<Log, Fail> {
    let ran = call(rt.alloc(), words, files, room)?;
    assert!(rt; ran.status == status);
    assert!(rt; ran.text.as_slice() == text.as_bytes(), "{text}");
    Ok(ran.log)
}
