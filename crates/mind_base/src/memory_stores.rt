//! A store in memory, for tests, of which listed calls fail.

ghost use Rattle.std.specs.Prelude.{◌≡◌, ◌≤◌, map, [], None, Some, option_map, IfOk, vec_len};
ghost use Rattle.std.specs.FinMap.{get};
ghost use Rattle.mind_base.specs.Store.{file_map, held, ReadHasCause, ReadTells, StaysUnlessFailed, Asks};
ghost use Rattle.mind_base.specs.MemStore.{contents, StoreReads};

use crate::{Name, ReadError, Store};
use std::alloc::Global;
use std::marker::Model;

/// Files in memory, for tests: reads fail at the calls whose numbers, from 0, are listed, and at
/// names that it lacks. Of two files of one name the first counts. It does not tell which names were
/// asked for.
#[derive(Debug, Drop)]
pub struct MemStore {
    files: Vec<(Name, Vec<u8>)>,
    failing: Vec<u32>,
    calls: u32,
    faults: u64,
    missed: u64,
}

impl Model for MemStore {
    ghost use Rattle.mind_base.specs.MemStore.{MemStoreView, contents};

    ghost Value = { MemStoreView };

    ghost view = { λ s. record { files = contents s.files.items; failing = s.failing.items; calls = s.calls; faults = s.faults; missed = s.missed } };
}

impl MemStore {
    pub fn new(files: Vec<(Name, Vec<u8>)>, failing: Vec<u32>) -> MemStore
        ensures { result ≡ record { files = contents files.items; failing = failing.items; calls = 0; faults = 0; missed = 0 } }
    {
        MemStore {
            files,
            failing,
            calls: 0,
            faults: 0,
            missed: 0,
        }
    }
}

/// The bytes of the first file of that name.
fn find<'a>(files: &'a [(Name, Vec<u8>)], name: &str) -> Option<&'a Vec<u8>>
    ensures { option_map (λ bytes. bytes.now.items) result ≡ get (file_map (contents files.now)) name.now }
{
    for file in files {
        if name == file.0.as_str() {
            return Some(&file.1);
        }
    }
    None
}

impl Store for MemStore {
    ghost holds = { λ s. Some (file_map s.files) };

    ghost faults = { λ s. s.faults };

    ghost missed = { λ s. s.missed };

    ghost asked = { λ _. None };

    /// Fails exactly at the listed calls, where `faults` rises, and at a name that it lacks, where `missed`
    /// rises; else the file is given, but for want of memory or more bytes than the limit.
    fn read_all(&mut self, alloc: Global, name: &str, limit: u64) -> Result<Vec<u8>, ReadError>
        ensures reads { StoreReads self.old self.new name.now limit result }
        ensures keeps { Some (file_map self.new.files) ≡ Some (file_map self.old.files) }
        ensures short { IfOk result (λ bytes. vec_len bytes ≤ limit) }
        ensures cause { ReadHasCause (held (Some (file_map self.old.files)) name.now)
            self.old.faults self.new.faults self.old.missed self.new.missed limit result }
        ensures told { ReadTells (held (Some (file_map self.old.files)) name.now) limit result }
        ensures steady { StaysUnlessFailed self.old.faults self.new.faults self.old.missed self.new.missed result }
        ensures asks { Asks None None name.now result }
    {
        let call = self.calls;
        self.calls = self.calls.saturating_add(1);
        if self.failing.contains(&call) {
            self.faults = self.faults.saturating_add(1);
            return Err(ReadError::Failed);
        }
        match find(self.files.as_slice(), name) {
            None => {
                self.missed = self.missed.saturating_add(1);
                Err(ReadError::Failed)
            }
            Some(bytes) => {
                let read = bytes.len() as u64;
                if read > limit {
                    return Err(ReadError::TooLong { read });
                }
                match Vec::from_slice(alloc, bytes.as_slice()) {
                    Ok(copy) => Ok(copy),
                    Err(_) => Err(ReadError::NoMemory),
                }
            }
        }
    }
}
