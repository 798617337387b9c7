//! Why inputs were not brought.

ghost use Rattle.std.specs.Prelude.{◌≡◌};
ghost use Rattle.mind_inputs.specs.declared.stopped.Stopped.TheVariants.{NoMemory as no_memory};

use crate::Refusal;
use mind_base::NoMemory;

/// Why a run was not begun: an input is refused, a read failed, or there was no memory.
#[derive(Debug, Drop)]
pub enum Stopped {
    Refused { refusal: Refusal },
    ReadFault,
    NoMemory,
}

impl From<NoMemory> for Stopped {
    ghost from_gives = { λ _ stopped. stopped ≡ no_memory };

    fn from(_: NoMemory) -> Self {
        Stopped::NoMemory
    }
}
