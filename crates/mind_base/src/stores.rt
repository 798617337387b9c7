//! What holds the files that a call reads.

ghost use Rattle.std.specs.Prelude.{◌≡◌, ◌≤◌, ℕ, List, Option, IfOk, vec_len};
ghost use Rattle.mind_base.specs.Store.{Files, held, ReadHasCause, ReadTells, StaysUnlessFailed, Asks};

use std::alloc::Global;

/// Why a read gave no bytes: the store failed or misses the name, there are more bytes than the
/// limit (`read` of them were seen), or there was no memory.
#[derive(Clone, Copy, Debug, PartialEq, Eq)]
pub enum ReadError {
    Failed,
    TooLong { read: u64 },
    NoMemory,
}

/// A store of files, read whole by their names.
pub trait Store {
    /// The files by name, or None where the store does not tell what it holds.
    ghost holds: { Self → Option Files };

    /// How often a device failed.
    ghost faults: { Self → ℕ };

    /// How often a name was missing.
    ghost missed: { Self → ℕ };

    /// The names that were asked for so far, in order, or None where the store does not tell.
    ghost asked: { Self → Option (List (List ℕ)) };

    /// The bytes under a name, at most `limit` of them.
    fn read_all(&mut self, alloc: Global, name: &str, limit: u64) -> Result<Vec<u8>, ReadError>
        ensures keeps { holds self.new ≡ holds self.old }
        ensures short { IfOk result (λ bytes. vec_len bytes ≤ limit) }
        ensures cause { ReadHasCause (held (holds self.old) name.now)
            (faults self.old) (faults self.new) (missed self.old) (missed self.new) limit result }
        ensures told { ReadTells (held (holds self.old) name.now) limit result }
        ensures steady { StaysUnlessFailed (faults self.old) (faults self.new) (missed self.old) (missed self.new) result }
        ensures asks { Asks (asked self.old) (asked self.new) name.now result };
}
