//! A sink over standard output.

ghost use Rattle.std.specs.Prelude.{None};

use crate::{Sink, WriteError};
use std::io;
use std::io::Write;

/// Standard output. It does not tell what was written.
#[derive(Drop)]
pub struct OutSink<'a, P: Print> {
    rt: &'a P,
    faults: u64,
    writes: u64,
}

impl<'a, P: Print> OutSink<'a, P> {
    /// Takes no memory.
    pub fn new(rt: &'a P) -> Self {
        OutSink {
            rt,
            faults: 0,
            writes: 0,
        }
    }
}

impl<'a, P: Print> Sink for OutSink<'a, P> {
    ghost written = { λ _. None };

    ghost faults = { λ s. s.faults };

    ghost writes = { λ s. s.writes };

    fn write_all(&mut self, bytes: &[u8]) -> Result<(), WriteError> {
        self.writes = self.writes.saturating_add(1);
        match io::writer(self.rt).write_all(bytes) {
            Ok(()) => Ok(()),
            Err(_) => {
                self.faults = self.faults.saturating_add(1);
                Err(WriteError::Failed)
            }
        }
    }
}
