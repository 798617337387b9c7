//! One flat memory for each domain, zero where nothing was written.

ghost use Rattle.std.specs.Prelude.{◌≡◌, ◌<◌, IfOk, OnOk, OnErr};
ghost use Rattle.flat_memory.specs.FlatMemory.{byte_in, byte_stored, zeroed};

use crate::domains::DomainMemory;
use mind_base::{NoMemory, Pending, Place, Span};
use std::alloc::Global;
use std::marker::Model;

/// A flat memory of 2^32 bytes for each of the 16 domains, all zero at first. Only pages that were
/// written are kept.
#[derive(Debug, Drop)]
pub struct FlatMemory {
    domains: Vec<DomainMemory>,
    alloc: Global,
}

impl Model for FlatMemory {
    ghost use Rattle.std.specs.Prelude.{◌≡◌, length};
    ghost use Rattle.flat_memory.specs.FlatMemory.{MemoryView};

    ghost Value = { MemoryView };

    ghost view = { λ m. record { domains = m.domains.items } };

    ghost invariant = { λ m. length m.domains.items ≡ 16 };
}

impl FlatMemory {
    /// A memory whose bytes are all zero.
    pub fn new(alloc: Global) -> Result<FlatMemory, NoMemory>
        ensures zero { IfOk result (λ memory. byte_in memory ≡ (λ _ _. 0)) }
    {
        let mut domains = Vec::new(alloc);
        for _ in 0..16u32 {
            domains.push(DomainMemory::new(alloc))?;
        }
        Ok(FlatMemory { domains, alloc })
    }

    /// The byte at a place.
    pub fn byte(&self, place: Place) -> u8
        ensures { result ≡ byte_in self.now place.domain place.address }
    {
        self.domains[place.domain as usize].byte(place.address)
    }

    /// Lets the store take effect in a domain, which is below 16. After an error the memory is as it was.
    pub fn store(&mut self, domain: u8, store: Pending) -> Result<(), NoMemory>
        requires { domain < 16 }
        ensures ok { OnOk result (byte_in self.new ≡ byte_stored (byte_in self.old) domain store) }
        ensures err { OnErr result (self.new ≡ self.old) }
    {
        self.domains[domain as usize].store(self.alloc, store)
    }

    /// Makes the pages of the span zero: they are no longer kept. This takes no memory.
    pub fn zero(&mut self, span: &Span)
        ensures { byte_in self.new ≡ zeroed (byte_in self.old) span.now }
    {
        self.domains[span.domain as usize].zero(span.base, span.pages);
    }
}
