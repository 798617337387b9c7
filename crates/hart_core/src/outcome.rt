//! What an instruction asks for.

use rv32_decode::{AmoKind, LoadKind};

/// A locked operation: load reserved, store conditional, or an atomic memory operation.
#[derive(Clone, Copy, Debug, PartialEq, Eq)]
pub enum LockedKind {
    Lr,
    Sc,
    Amo { kind: AmoKind },
}

/// What an instruction asks. Where no pc is named and the hart goes on, it goes on at the next word.
#[derive(Clone, Copy, Debug, PartialEq, Eq)]
pub enum Act {
    /// Register `rd` takes the value, and the hart goes on at `pc`. Where nothing is written `rd` is 0.
    Next {
        rd: u8,
        value: u32,
        pc: u32,
    },
    /// Register `rd` takes the bytes at the address, extended as `extend` says.
    Load {
        kind: LoadKind,
        rd: u8,
        address: u32,
    },
    /// The low `size` bytes of the value (1, 2 or 4) go to the address.
    Store {
        size: u8,
        address: u32,
        value: u32,
    },
    /// A locked operation on the word at the address. The operand of LR is 0.
    Locked {
        kind: LockedKind,
        rd: u8,
        address: u32,
        operand: u32,
    },
    /// A fence. It is ordering, and so waits for the hart's own stores, where `drains` is true.
    Fence {
        drains: bool,
    },
    /// ECALL.
    Call,
    /// A jump or a taken branch to a target that is no multiple of 4, which is a fault.
    Jumped {
        target: u32,
    },
    /// EBREAK, which is a fault.
    Broke,
}
