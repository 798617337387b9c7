//! Eight threads at a spin lock, each of which adds 25 to a counter, as under `examples/spin`.
use sample_runs::{RUN, row_files, written};
use std::alloc::Global;
use std::test::Fail;

/// Eight threads on four blades.
const SPIN: &str =
    "format = 1\nslots = 64\nprotect = 64\noutliers = 16\nregion = 4\nmost = 9\nthreshold = 4\n[[blade]]\nframes = 16\n[[blade]]\nframes = 16\n[[blade]]\nframes = 16\n[[blade]]\nframes = 16\n[[memory]]\nspare = 64\nhomes = [{ domain = 0, page = 0, pages = 256 }]\n[[memory]]\nspare = 64\nhomes = [{ domain = 0, page = 256, pages = 256 }]\n[[image]]\nname = \"p0.bin\"\nat = 0\n[[thread]]\nblade = 0\ndomain = 0\nimage = 0\nqueue = 4\n[[thread]]\nblade = 0\ndomain = 0\nimage = 0\nqueue = 4\n[[thread]]\nblade = 1\ndomain = 0\nimage = 0\nqueue = 4\n[[thread]]\nblade = 1\ndomain = 0\nimage = 0\nqueue = 4\n[[thread]]\nblade = 2\ndomain = 0\nimage = 0\nqueue = 4\n[[thread]]\nblade = 2\ndomain = 0\nimage = 0\nqueue = 4\n[[thread]]\nblade = 3\ndomain = 0\nimage = 0\nqueue = 4\n[[thread]]\nblade = 3\ndomain = 0\nimage = 0\nqueue = 4\n[[map]]\ndomain = 0\npage = 1\npages = 2\nperm = \"rw\"\n";

const PROGRAM: &str =
    "000012b7 00002337 01900493 00300893 00000073 00050613 00100393 0c72a42f fe041ee3 00032583 00158593 00b32023 0002a023 fff48493 fe0492e3 00061c63 0c800693 00032503 fed51ee3 00200893 00000073 00000513 00200893 00000073";

/// Thread 0 waits for 200 and exits with it.
const REPORT: &str =
    "mind 1\nthread 0 exit 200 out -\nthread 1 exit 0 out -\nthread 2 exit 0 out -\nthread 3 exit 0 out -\nthread 4 exit 0 out -\nthread 5 exit 0 out -\nthread 6 exit 0 out -\nthread 7 exit 0 out -\ncounts events 57602 labels 7384 takes 2396 gives 2095 downs 526 peak 1 splits 0 merges 0\n";

#[test]
fn eight_threads_count_to_two_hundred(rt: HostRuntime) -> Result<(), Fail> {
    let alloc = rt.alloc();
    let schedule = b"run 900\nepoch\nsettle\nrun 900\n";
    let files = row_files(alloc, SPIN, &[PROGRAM], schedule, b"")?;
    let report = written(alloc, &RUN, files)?;
    assert!(rt; report.as_slice() == REPORT.as_bytes());
    Ok(())
}

/// What 200,000 drawn lines and a settling write on the rack.
fn long_load(alloc: Global) -> Result<Vec<u8>, Fail> {
    let files = row_files(alloc, SPIN, &[PROGRAM], b"", b"")?;
    written(alloc, &["load", "r.toml", "200000", "1"], files)
}

#[test]
fn a_long_load_is_done_and_writes_the_same_again(rt: HostRuntime) -> Result<(), Fail> {
    let alloc = rt.alloc();
    let report = long_load(alloc)?;
    let text = String::from_utf8_lossy(alloc, report.as_slice())?;
    let counts = text.as_str().lines().last().ok_or("no line")?;
    assert!(rt; counts.starts_with("counts events 200001 "), "{counts}");
    let again = long_load(alloc)?;
    assert!(rt; again.as_slice() == report.as_slice());
    Ok(())
}
