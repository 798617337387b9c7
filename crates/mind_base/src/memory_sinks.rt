//! A sink in memory, for tests, with room for so many bytes.

ghost use Rattle.std.specs.Prelude.{◌≡◌, ◌≤◌, [], Some, IfOk, OnOk};
ghost use Rattle.mind_base.specs.Sink.{Writes};
ghost use Rattle.mind_base.specs.Store.{risen};
ghost use Rattle.mind_base.specs.MemSink.{SinkTakes};

use crate::{NoMemory, Sink, WriteError};
use std::alloc::Global;
use std::marker::Model;

/// Bytes in memory, for tests: takes `room` bytes and then fails. All its memory is taken at the start.
#[derive(Debug, Drop)]
pub struct MemSink {
    bytes: Vec<u8>,
    room: usize,
    faults: u64,
    writes: u64,
}

impl Model for MemSink {
    ghost use Rattle.std.specs.Prelude.{◌≤◌, length, vec_len, vec_capacity};
    ghost use Rattle.mind_base.specs.MemSink.{MemSinkView};

    ghost Value = { MemSinkView };

    ghost view = { λ s. record { bytes = s.bytes.items; room = s.room; faults = s.faults; writes = s.writes } };

    ghost invariant = { λ s. (vec_len s.bytes ≤ s.room) × (s.room ≤ vec_capacity s.bytes) };
}

impl MemSink {
    /// A sink for `room` bytes.
    pub fn new(alloc: Global, room: u32) -> Result<MemSink, NoMemory>
        ensures { IfOk result (λ sink. sink ≡ record { bytes = []; room = room; faults = 0; writes = 0 }) }
    {
        let room = room as usize;
        let bytes = Vec::with_capacity(alloc, room)?;
        Ok(MemSink {
            bytes,
            room,
            faults: 0,
            writes: 0,
        })
    }

    /// The bytes that it took.
    pub fn written(&self) -> &[u8]
        ensures { result.now ≡ self.now.bytes }
    {
        self.bytes.as_slice()
    }
}

impl Sink for MemSink {
    ghost written = { λ s. Some s.bytes };

    ghost faults = { λ s. s.faults };

    ghost writes = { λ s. s.writes };

    /// Takes the bytes that there is room for; fails exactly where they do not all fit.
    fn write_all(&mut self, bytes: &[u8]) -> Result<(), WriteError>
        ensures takes { SinkTakes self.old self.new bytes.now result }
        ensures written { Writes (Some self.old.bytes) (Some self.new.bytes) self.old.faults self.new.faults bytes.now result }
        ensures counts { self.old.faults ≤ self.new.faults }
        ensures steady { OnOk result (self.new.faults ≡ self.old.faults) }
        ensures once { self.new.writes ≡ risen self.old.writes }
    {
        self.writes = self.writes.saturating_add(1);
        let left = self.room - self.bytes.len();
        if bytes.len() <= left {
            self.bytes.extend_from_slice(bytes).unwrap();
            return Ok(());
        }
        self.bytes.extend_from_slice(&bytes[..left]).unwrap();
        self.faults = self.faults.saturating_add(1);
        Err(WriteError::Failed)
    }
}
