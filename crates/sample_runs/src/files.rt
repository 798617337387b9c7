//! Files in memory, by their names.

use mind_base::Name;
use std::alloc::Global;
use std::test::Fail;

/// The files that a call may read, and the numbers of its reads, from 0, that fail.
#[derive(Drop)]
pub struct Files {
    alloc: Global,
    pub(crate) named: Vec<(Name, Vec<u8>)>,
    pub(crate) failing: Vec<u32>,
}

impl Files {
    /// No files, of which no read fails.
    pub fn new(alloc: Global) -> Files {
        Files {
            alloc,
            named: Vec::new(alloc),
            failing: Vec::new(alloc),
        }
    }

    /// Puts a file with these bytes under a name.
    pub fn put(&mut self, name: &str, bytes: &[u8]) -> Result<(), Fail> {
        let name = Name::of(self.alloc, name)?.ok_or("no name")?;
        let bytes = Vec::from_slice(self.alloc, bytes)?;
        self.named.push((name, bytes))?;
        Ok(())
    }

    /// The read of this number, from 0, fails.
    pub fn fail(&mut self, read: u32) -> Result<(), Fail> {
        self.failing.push(read)?;
        Ok(())
    }
}
