//! One page of a domain that was written.

ghost use Rattle.std.specs.Prelude.{◌≡◌, ℕ, ◌+◌, ◌<◌, ◌≤◌, length, replicate, slice_index, IfOk};
ghost use Rattle.flat_memory.specs.FlatMemory.{written};

use mind_base::NoMemory;
use std::alloc::Global;
use std::marker::Model;

/// The 4096 bytes of a page that is kept.
#[derive(Debug, Drop)]
pub(crate) struct KeptPage {
    bytes: Vec<u8>,
}

impl Model for KeptPage {
    ghost use Rattle.std.specs.Prelude.{◌≡◌, ℕ, List, length};

    ghost Value = { List ℕ };

    ghost view = { λ p. p.bytes.items };

    ghost invariant = { λ p. length p.bytes.items ≡ 4096 };
}

impl KeptPage {
    /// A page whose bytes are all zero.
    pub(crate) fn zero(alloc: Global) -> Result<KeptPage, NoMemory>
        ensures { IfOk result (λ page. page ≡ replicate 4096 0) }
    {
        Ok(KeptPage {
            bytes: vec![in alloc; 0u8; 4096]?,
        })
    }

    /// The byte number `offset`, below 4096.
    pub(crate) fn byte(&self, offset: u32) -> u8
        requires { offset < 4096 }
        ensures { result ≡ slice_index self.now offset }
    {
        self.bytes[offset as usize]
    }

    /// Writes the bytes over those from the byte number `offset` on. They end inside the page.
    pub(crate) fn write(&mut self, offset: u32, bytes: &[u8])
        requires { offset + length bytes.now ≤ 4096 }
        ensures { (k : ℕ) → slice_index self.new k ≡ written self.old offset bytes.now k }
    {
        let at = offset as usize;
        self.bytes[at..at + bytes.len()].copy_from_slice(bytes);
    }
}
