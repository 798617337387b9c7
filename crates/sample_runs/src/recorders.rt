//! A store and a sink in memory that record what they are asked for.
ghost use Rattle.std.specs.Prelude.{Some, None};
ghost use Rattle.mind_base.specs.Store.{file_map};

use crate::Files;
use mind_base::{MemSink, MemStore, NoMemory, ReadError, Sink, Store, WriteError};
use std::alloc::Global;

/// Files in memory. Each read adds a line: the name that was asked for, and the limit.
#[derive(Drop)]
pub struct AskedStore {
    files: MemStore,
    pub asked: Vec<u8>,
}

impl AskedStore {
    pub fn new(alloc: Global, files: Files) -> AskedStore {
        AskedStore {
            files: MemStore::new(files.named, files.failing),
            asked: Vec::new(alloc),
        }
    }
}

impl Store for AskedStore {
    ghost holds = { λ s. Some (file_map s.files.files) };

    ghost faults = { λ s. s.files.faults };

    ghost missed = { λ s. s.files.missed };

    ghost asked = { λ _. None };

    fn read_all(&mut self, alloc: Global, name: &str, limit: u64) -> Result<Vec<u8>, ReadError> {
        let line = match format!(in alloc; "{name} {limit}\n") {
            Ok(line) => line,
            Err(_) => return Err(ReadError::NoMemory),
        };
        if self.asked.extend_from_slice(line.as_bytes()).is_err() {
            return Err(ReadError::NoMemory);
        }
        self.files.read_all(alloc, name, limit)
    }
}

/// Bytes in memory, and how many pieces they came in.
#[derive(Drop)]
pub struct PieceSink {
    bytes: MemSink,
    pub pieces: u32,
}

impl PieceSink {
    /// A sink for `room` bytes.
    pub fn new(alloc: Global, room: u32) -> Result<PieceSink, NoMemory> {
        let bytes = MemSink::new(alloc, room)?;
        Ok(PieceSink { bytes, pieces: 0 })
    }

    /// The bytes that it took.
    pub fn written(&self) -> &[u8] {
        self.bytes.written()
    }
}

impl Sink for PieceSink {
    ghost written = { λ s. Some s.bytes.bytes };

    ghost faults = { λ s. s.bytes.faults };

    ghost writes = { λ s. s.bytes.writes };

    fn write_all(&mut self, bytes: &[u8]) -> Result<(), WriteError> {
        self.pieces = self.pieces.saturating_add(1);
        self.bytes.write_all(bytes)
    }
}
