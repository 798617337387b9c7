//! A store that waits in a buffer.

ghost use Rattle.std.specs.Prelude.{◌≡◌, None, Some, if◌then◌else◌};
ghost use Rattle.mind_base.specs.Pending.{IsPending, covers, byte_at};

use std::marker::Model;

/// A store that waits in a thread's queue: `size` bytes, 1, 2 or 4, at an address that is a multiple
/// of the size. The bytes are the low ones of `value`, the lowest first.
#[derive(Clone, Copy, Debug, PartialEq, Eq)]
pub struct Pending {
    pub address: u32,
    pub size: u8,
    pub value: u32,
}

impl Model for Pending {
    ghost use Rattle.mind_base.specs.Pending.{PendingView, IsPending};

    ghost Value = { PendingView };

    ghost view = { λ p. record { address = p.address; size = p.size; value = p.value } };

    ghost invariant = { λ p. IsPending p.address p.size };

    ghost inverse = { λ v. record { address = v.address; size = v.size; value = v.value } };
}

impl Pending {
    /// The store of the low bytes of a value.
    pub fn of(address: u32, size: u8, value: u32) -> Pending
        requires { IsPending address size }
        ensures { result ≡ record { address = address; size = size; value = value } }
    {
        Pending {
            address,
            size,
            value,
        }
    }

    /// The byte that the store has at an address, where it covers it.
    pub fn covered_byte(&self, address: u32) -> Option<u8>
        ensures { result ≡ (if covers self.now address then Some (byte_at self.now address) else None) }
    {
        if self.address <= address && address - self.address < self.size as u32 {
            let bytes = self.value.to_le_bytes();
            Some(bytes[(address - self.address) as usize])
        } else {
            None
        }
    }
}
