//! What takes the text of a call.

ghost use Rattle.std.specs.Prelude.{◌≡◌, ◌≤◌, ℕ, List, Option, OnOk};
ghost use Rattle.mind_base.specs.Sink.{Writes};
ghost use Rattle.mind_base.specs.Store.{risen};

/// A write did not take all the bytes.
#[derive(Clone, Copy, Debug, PartialEq, Eq)]
pub enum WriteError {
    Failed,
}

/// Where text is written.
pub trait Sink {
    /// The bytes written so far, or None where the sink does not tell.
    ghost written: { Self → Option (List ℕ) };

    /// How often a write failed.
    ghost faults: { Self → ℕ };

    /// How often it was written to, whole texts and failed writes alike. At the greatest 64-bit number the count
    /// stands still.
    ghost writes: { Self → ℕ };

    /// Puts the bytes behind what was written; after an error a front of them stands there. Takes no memory.
    fn write_all(&mut self, bytes: &[u8]) -> Result<(), WriteError>
        ensures written { Writes (written self.old) (written self.new) (faults self.old) (faults self.new) bytes.now result }
        ensures counts { faults self.old ≤ faults self.new }
        ensures steady { OnOk result (faults self.new ≡ faults self.old) }
        ensures once { writes self.new ≡ risen (writes self.old) };
}
