//! The program: the real files, the real output, and one call.
#![tactic(auto)]

use mind_base::{DirStore, Log, OutSink};
use mind_top::{Status, mind};
use std::process::ExitCode;
use std::rt::Env;
use std::{env, io};

/// The words after the program's name. Where one of them, or that name, is not UTF-8, they are of no form,
/// as no words are.
fn words<R: Env + AllocGlobal>(rt: &R) -> io::Result<Vec<String>> {
    match env::args(rt) {
        Ok(args) => Ok(args.skip(1).collect(rt.alloc())?),
        Err(error) if error.kind() == io::ErrorKind::InvalidData => Ok(Vec::new(rt.alloc())),
        Err(error) => Err(error),
    }
}

fn main(rt: HostRuntime) -> ExitCode {
    let mut store = DirStore::new(&rt);
    let mut sink = OutSink::new(&rt);
    let mut log = Log::new(rt.alloc());
    let mut end = None;
    let status = match words(&rt) {
        Ok(words) => mind(
            rt.alloc(),
            words.as_slice(),
            &mut store,
            &mut sink,
            &mut log,
            &mut end,
        ),
        Err(_) => Status::NoMemory,
    };
    ExitCode::from(status.code())
}

#[cfg(test)]
mod tests;
