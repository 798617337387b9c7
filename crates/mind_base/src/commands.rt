//! Permissions, and the commands that change what is mapped.

ghost use Rattle.std.specs.Prelude.{◌≡◌};
ghost use Rattle.mind_base.specs.OutcomeWord.{outcome_word};
ghost use Rattle.mind_base.specs.Permission.{may_read, may_write, allows};

use crate::{Range, Span};

/// What a domain may do with a page: nothing, read, or read and write.
#[derive(Clone, Copy, Debug, PartialEq, Eq)]
pub enum Perm {
    No,
    R,
    Rw,
}

impl Perm {
    /// Whether a page of this permission may be read.
    pub fn may_read(self) -> bool
        ensures { result ≡ may_read self }
    {
        match self {
            Perm::No => false,
            Perm::R | Perm::Rw => true,
        }
    }

    /// Whether a page of this permission may be written.
    pub fn may_write(self) -> bool
        ensures { result ≡ may_write self }
    {
        match self {
            Perm::No | Perm::R => false,
            Perm::Rw => true,
        }
    }

    /// Whether a page of this permission may be read, or written.
    pub fn allows(self, write: bool) -> bool
        ensures { result ≡ allows write self }
    {
        match self {
            Perm::No => false,
            Perm::R => !write,
            Perm::Rw => true,
        }
    }
}

/// How a command ended.
#[derive(Clone, Copy, Debug, PartialEq, Eq)]
pub enum Outcome {
    Fine,
    Unplaced,
    Overlap,
    Unmapped,
    Slots,
    Same,
    Room,
}

impl Outcome {
    /// The word for it in reports and journals; that of `Fine` is `ok`.
    pub fn word(self) -> &'static [u8]
        ensures { result.now ≡ outcome_word self }
    {
        match self {
            Outcome::Fine => b"ok",
            Outcome::Unplaced => b"unplaced",
            Outcome::Overlap => b"overlap",
            Outcome::Unmapped => b"unmapped",
            Outcome::Slots => b"slots",
            Outcome::Same => b"same",
            Outcome::Room => b"room",
        }
    }
}

/// What the switch is asked to do with a run of pages, or with a block that moves to a memory blade.
#[derive(Clone, Copy, Debug, PartialEq, Eq)]
pub enum Command {
    Map { span: Span, perm: Perm },
    Unmap { span: Span },
    Protect { span: Span, perm: Perm },
    Migrate { range: Range, memory: u8 },
}
