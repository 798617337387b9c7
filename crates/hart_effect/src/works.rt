//! What is left to do for an instruction: a change of the hart, and an effect on memory.

use mind_base::{FaultKind, Granule, Pending};
use std::marker::Model;

/// How a core goes on behind an instruction: register `rd`, 0 to 31, takes the value, and the core stands
/// at `pc`. Where nothing is written `rd` is 0.
#[derive(Clone, Copy, Debug, PartialEq, Eq)]
pub struct Continued {
    pub rd: u8,
    pub value: u32,
    pub pc: u32,
}

impl Model for Continued {
    ghost use Rattle.std.specs.Prelude.{◌<◌};
    ghost use Rattle.hart_effect.specs.Core.{ContinuedView};

    ghost Value = { ContinuedView };

    ghost view = { λ c. record { rd = c.rd; value = c.value; pc = c.pc } };

    ghost invariant = { λ c. c.rd < 32 };

    ghost inverse = { λ v. record { rd = v.rd; value = v.value; pc = v.pc } };
}

/// How a core changes where nothing else does.
#[derive(Clone, Copy, Debug, PartialEq, Eq)]
pub enum Change {
    Continues {
        next: Continued,
    },
    /// The byte joins the output, and the core stands at `pc`.
    PutsOut {
        byte: u8,
        pc: u32,
    },
    Exits {
        value: u32,
    },
    Faults {
        kind: FaultKind,
        value: u32,
        pc: u32,
    },
}

/// What an access does beside its core: its store joins the thread's buffer, the thread reserves a granule
/// or gives its reservation up, or its store takes effect in memory at once.
#[derive(Clone, Copy, Debug, PartialEq, Eq)]
pub enum AccessEffect {
    Buffers { store: Pending },
    Reserves { granule: Granule },
    GivesUp,
    Stores { store: Pending },
}

/// What a thread is to do in one step: its core alone changes, or an access has its effect and the core
/// goes on.
#[derive(Clone, Copy, Debug, PartialEq, Eq)]
pub enum Work {
    Alone {
        change: Change,
    },
    Accesses {
        effect: AccessEffect,
        next: Continued,
    },
}
