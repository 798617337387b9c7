//! A store over the files of a folder.

ghost use Rattle.std.specs.Prelude.{◌≡◌, ◌<◌, ◌≤◌, None, IfOk, IfErr, vec_len};
ghost use Rattle.mind_base.specs.Store.{IsPiecewise};

use crate::{ReadError, Store};
use std::alloc::Global;
use std::fs::File;
use std::io::Read;
use std::rt::Files;

/// The files of the folder that the program runs in. It does not tell what they hold
/// nor which were asked for.
#[derive(Drop)]
pub struct DirStore<'a, R: Files> {
    rt: &'a R,
    faults: u64,
}

impl<'a, R: Files> DirStore<'a, R> {
    /// Takes no memory.
    pub fn new(rt: &'a R) -> Self {
        DirStore { rt, faults: 0 }
    }
}

impl<'a, R: Files> Store for DirStore<'a, R> {
    ghost holds = { λ _. None };

    ghost faults = { λ s. s.faults };

    ghost missed = { λ _. 0 };

    ghost asked = { λ _. None };

    fn read_all(&mut self, alloc: Global, name: &str, limit: u64) -> Result<Vec<u8>, ReadError> {
        let answer = match File::open(self.rt, name) {
            Ok(mut file) => read_to_limit(alloc, &mut file, limit),
            Err(_) => Err(ReadError::Failed),
        };
        if let Err(ReadError::Failed) = answer {
            self.faults = self.faults.saturating_add(1);
        }
        answer
    }
}

/// Reads a file to its end, and stops once more than `limit` bytes came.
fn read_to_limit<F: Read>(alloc: Global, file: &mut F, limit: u64) -> Result<Vec<u8>, ReadError>
    ensures { IsPiecewise limit result }
{
    let mut bytes = Vec::new(alloc);
    let mut piece = [0u8; 4096];
    for _ in 0..u64::MAX {
        let count = match file.read(&mut piece) {
            Ok(count) => count,
            Err(_) => return Err(ReadError::Failed),
        };
        if count == 0 {
            return Ok(bytes);
        }
        if bytes.extend_from_slice(&piece[..count]).is_err() {
            return Err(ReadError::NoMemory);
        }
        let read = bytes.len() as u64;
        if read > limit {
            return Err(ReadError::TooLong { read });
        }
    }
    Err(ReadError::Failed)
}
