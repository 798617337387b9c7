//! Why a text is refused: the first fault and its line, or want of memory.

ghost use Rattle.std.specs.Prelude.{◌≡◌};
ghost use Rattle.plain_text.specs.declared.refusals.LineRefusal.TheVariants.{NoMemory as no_memory};

use mind_base::NoMemory;
use std::alloc::{AllocError, AllocFailed};

/// Why a text of lines was not read: its first line with a fault, counted from 1, and the fault (what
/// faults there are is for the format to say), or want of memory.
#[derive(Clone, Copy, Debug, PartialEq, Eq)]
pub enum LineRefusal<F> {
    Refused { line: u32, what: F },
    NoMemory,
}

impl<F> From<AllocError> for LineRefusal<F> {
    ghost from_gives = { λ _ e. e ≡ no_memory };

    fn from(_: AllocError) -> Self {
        LineRefusal::NoMemory
    }
}

impl<F, T: Drop> From<AllocFailed<T>> for LineRefusal<F> {
    ghost from_gives = { λ _ e. e ≡ no_memory };

    fn from(_: AllocFailed<T>) -> Self {
        LineRefusal::NoMemory
    }
}

impl<F> From<NoMemory> for LineRefusal<F> {
    ghost from_gives = { λ _ e. e ≡ no_memory };

    fn from(_: NoMemory) -> Self {
        LineRefusal::NoMemory
    }
}
