//! Where a hart stands: running, ended, or at a fault.

/// Why a thread was stopped by its own step.
#[derive(Clone, Copy, Debug, PartialEq, Eq)]
pub enum FaultKind {
    Fetch,
    Illegal,
    Target,
    Align,
    Load,
    Store,
    Call,
    Break,
}

/// Where a thread stands: it runs at a pc, it exited with a value, or a fault ended it. The fault's
/// value is the pc (fetch), the word (illegal), the target, the address (align, load, store), the
/// number of the call, or 0 (break).
#[derive(Clone, Copy, Debug, PartialEq, Eq)]
pub enum End {
    Running {
        pc: u32,
    },
    Exit {
        value: u32,
    },
    Fault {
        kind: FaultKind,
        value: u32,
        pc: u32,
    },
}
