//! Reads and writes that fail, and an input past its limit.
use crate::tests::calls::{PUTS_A, RACK, SIX_STEPS, expect, files_of};
use mind_top::Status;
use sample_runs::{CHECK, Files, RUN};
use std::alloc::Global;
use std::test::Fail;

#[test]
fn a_failing_read(rt: HostRuntime) -> Result<(), Fail> {
    let mut files = files_of(rt.alloc(), RACK, PUTS_A, SIX_STEPS)?;
    files.fail(1)?;
    let _log = expect(&rt, &RUN, files, 4096, Status::ReadFault, "")?;
    Ok(())
}

#[test]
fn a_missing_image(rt: HostRuntime) -> Result<(), Fail> {
    let mut files = Files::new(rt.alloc());
    files.put("r.toml", RACK.as_bytes())?;
    files.put("s.txt", SIX_STEPS.as_bytes())?;
    let _log = expect(&rt, &RUN, files, 4096, Status::ReadFault, "")?;
    Ok(())
}

#[test]
fn a_sink_of_five_bytes(rt: HostRuntime) -> Result<(), Fail> {
    let files = files_of(rt.alloc(), RACK, PUTS_A, SIX_STEPS)?;
    let _log = expect(&rt, &RUN, files, 5, Status::WriteFault, "mind ")?;
    Ok(())
}

#[test]
fn a_missing_journal(rt: HostRuntime) -> Result<(), Fail> {
    let files = files_of(rt.alloc(), RACK, PUTS_A, SIX_STEPS)?;
    let _log = expect(&rt, &CHECK, files, 4096, Status::ReadFault, "")?;
    Ok(())
}

/// So many line ends.
fn blank(alloc: Global, count: u32) -> Result<Vec<u8>, Fail> {
    let mut bytes = Vec::new(alloc);
    for _ in 0..count {
        bytes.push(b'\n')?;
    }
    Ok(bytes)
}

#[test]
fn an_input_past_its_limit(rt: HostRuntime) -> Result<(), Fail> {
    let long = blank(rt.alloc(), 65537)?;
    let mut files = Files::new(rt.alloc());
    files.put("r.toml", long.as_slice())?;
    let _log = expect(
        &rt,
        &RUN,
        files,
        4096,
        Status::Malformed,
        "refused rack long\n",
    )?;
    Ok(())
}
