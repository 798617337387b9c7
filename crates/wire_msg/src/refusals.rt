//! Why bytes spell no message.

ghost use Rattle.std.specs.Prelude.{◌≡◌};
ghost use Rattle.wire_msg.specs.declared.refusals.WireRefusal.TheVariants.{NoMemory as no_memory};

use mind_base::NoMemory;
use std::alloc::{AllocError, AllocFailed};
use std::error::Error;
use std::fmt;

/// Why bytes gave no message: they are none's spelling, or there was no memory.
#[derive(Clone, Copy, Debug, PartialEq, Eq)]
pub enum WireRefusal {
    BadFrame,
    NoMemory,
}

impl fmt::Display for WireRefusal {
    fn fmt<W: fmt::Write>(&self, f: &mut fmt::Formatter<W>) -> fmt::Result {
        f.write_str(match self {
            WireRefusal::BadFrame => "the bytes are no message",
            WireRefusal::NoMemory => "out of memory",
        })
    }
}

impl Error for WireRefusal {}

impl From<NoMemory> for WireRefusal {
    ghost from_gives = { λ _ e. e ≡ no_memory };

    fn from(_: NoMemory) -> Self {
        WireRefusal::NoMemory
    }
}

impl From<AllocError> for WireRefusal {
    ghost from_gives = { λ _ e. e ≡ no_memory };

    fn from(_: AllocError) -> Self {
        WireRefusal::NoMemory
    }
}

impl<T: Drop> From<AllocFailed<T>> for WireRefusal {
    ghost from_gives = { λ _ e. e ≡ no_memory };

    fn from(_: AllocFailed<T>) -> Self {
        WireRefusal::NoMemory
    }
}
