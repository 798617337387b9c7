//! A call of the program over files in memory, and what it leaves.
ghost use Rattle.std.specs.Prelude.{◌≡◌, []};

use crate::Files;
use crate::recorders::{AskedStore, PieceSink};
use mind_base::Log;
use mind_top::{Status, mind};
use rack_core::Rack;
use std::alloc::Global;
use std::test::Fail;

/// The words for the report of a run.
pub const RUN: [&str; 3] = ["run", "r.toml", "s.txt"];

/// The words for its journal.
pub const JOURNAL: [&str; 3] = ["journal", "r.toml", "s.txt"];

/// The words for the check of a journal.
pub const CHECK: [&str; 4] = ["check", "r.toml", "s.txt", "j.txt"];

/// How a call ended: its status, what it wrote and in how many pieces, a line for each read with its limit, its log, and
/// whether it left a rack.
#[derive(Drop)]
pub struct Ran {
    pub status: Status,
    pub text: Vec<u8>,
    pub pieces: u32,
    pub asked: Vec<u8>,
    pub log: Log,
    pub has_rack: bool,
}

fn words_of(alloc: Global, words: &[&str]) -> Result<Vec<String>, Fail> {
    let mut all = Vec::new(alloc);
    for word in words {
        all.push(String::from_str(alloc, word)?)?;
    }
    Ok(all)
}

/// The status, and whether a rack is left.
fn bare_call(
    alloc: Global,
    words: &[String],
    store: &mut AskedStore,
    sink: &mut PieceSink,
    log: &mut Log,
) -> (Status, bool)
    requires { log.old.notes ≡ [] }
{
    let mut end: Option<Rack> = None;
    let status = mind(alloc, words, store, sink, log, &mut end);
    (status, end.is_some())
}

/// A call of the program with these words over these files, which may write so many bytes.
pub fn call(alloc: Global, words: &[&str], files: Files, room: u32) -> Result<Ran, Fail> {
    let words = words_of(alloc, words)?;
    let mut store = AskedStore::new(alloc, files);
    let mut sink = PieceSink::new(alloc, room)?;
    let mut log = Log::new(alloc);
    let (status, has_rack) = bare_call(alloc, words.as_slice(), &mut store, &mut sink, &mut log);
    let text = Vec::from_slice(alloc, sink.written())?;
    Ok(Ran {
        status,
        text,
        pieces: sink.pieces,
        asked: store.asked,
        log,
        has_rack,
    })
}

/// What a call with these words writes over these files, where it is done.
pub fn written(alloc: Global, words: &[&str], files: Files) -> Result<Vec<u8>, Fail> {
    let ran = call(alloc, words, files, 65536)?;
    match ran.status {
        Status::Done => Ok(ran.text),
        status => Err(Fail::from(status)),
    }
}
