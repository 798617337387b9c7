//! A log of notes, to which notes are added alone.

ghost use Rattle.std.specs.Prelude.{◌≡◌, ◌<◌, ◌≤◌, ◌+◌, [], ◌∷◌, ◌++◌, length, take, slice_get, Some, IsOk, OnOk, OnErr};

use crate::{NoMemory, Note};
use std::alloc::Global;
use std::marker::Model;

/// The notes of a run, in order, and room for more. Contracts see the list and the number of notes
/// that fit without asking for memory.
#[derive(Debug, Drop)]
pub struct Log {
    notes: Vec<Note>,
}

impl Model for Log {
    ghost use Rattle.std.specs.Prelude.{◌-◌, vec_len, vec_capacity};
    ghost use Rattle.mind_base.specs.Log.{LogView};

    ghost Value = { LogView };

    ghost view = { λ l. record { notes = l.notes.items; spare = vec_capacity l.notes - vec_len l.notes } };
}

impl Log {
    /// An empty log. Takes no memory.
    pub fn new(alloc: Global) -> Log
        ensures { result.notes ≡ [] }
    {
        Log {
            notes: Vec::new(alloc),
        }
    }

    /// Puts a note at the end. After an error the log is as it was.
    pub fn add(&mut self, note: Note) -> Result<(), NoMemory>
        ensures ok { OnOk result (self.new.notes ≡ self.old.notes ++ note ∷ []) }
        ensures spare { OnOk result (self.old.spare ≤ self.new.spare + 1) }
        ensures has_room { 0 < self.old.spare → IsOk result }
        ensures err { OnErr result (self.new ≡ self.old) }
    {
        self.notes.reserve(1)?;
        self.notes.push(note).unwrap();
        Ok(())
    }

    /// Makes room for at least `more` notes and changes none.
    pub fn reserve(&mut self, more: usize) -> Result<(), NoMemory>
        ensures notes { self.new.notes ≡ self.old.notes }
        ensures room { OnOk result (more ≤ self.new.spare) }
        ensures err { OnErr result (self.new ≡ self.old) }
    {
        self.notes.reserve(more)?;
        Ok(())
    }

    /// Keeps the first `len` notes alone, and the room of the others for later ones. Takes no memory.
    pub fn truncate(&mut self, len: usize)
        requires { len ≤ length self.old.notes }
        ensures notes { self.new.notes ≡ take len self.old.notes }
        ensures room { length self.new.notes + self.new.spare ≡ length self.old.notes + self.old.spare }
    {
        self.notes.truncate(len);
    }

    pub fn len(&self) -> usize
        ensures { result ≡ length self.now.notes }
    {
        self.notes.len()
    }

    /// The note at a place, counted from 0.
    pub fn get(&self, i: usize) -> Note
        requires { i < length self.now.notes }
        ensures { slice_get self.now.notes i ≡ Some result }
    {
        self.notes[i]
    }
}
