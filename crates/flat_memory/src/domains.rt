//! The memory of one domain: the pages that were written.

ghost use Rattle.std.specs.Prelude.{◌≡◌, [], OnOk, OnErr};
ghost use Rattle.flat_memory.specs.FlatMemory.{byte_among, stored_among, zeroed_among};

use crate::kept_pages::KeptPage;
use mind_base::{NoMemory, Page, Pending};
use std::alloc::Global;
use std::collections::BTreeMap;
use std::marker::Model;

/// The memory of one domain: the pages that are kept, by their numbers.
#[derive(Debug, Drop)]
pub(crate) struct DomainMemory {
    pages: BTreeMap<u32, KeptPage>,
}

impl Model for DomainMemory {
    ghost use Rattle.std.specs.Prelude.{ℕ, List};

    ghost Value = { List (ℕ × List ℕ) };

    ghost view = { λ m. m.pages.entries };
}

impl DomainMemory {
    /// A memory that keeps no page.
    pub(crate) fn new(alloc: Global) -> DomainMemory
        ensures { result ≡ [] }
    {
        DomainMemory {
            pages: BTreeMap::new(alloc),
        }
    }

    /// The byte at an address.
    pub(crate) fn byte(&self, address: u32) -> u8
        ensures { result ≡ byte_among self.now address }
    {
        match self.pages.get(&Page::number_at(address)) {
            Some(page) => page.byte(Page::offset_at(address)),
            None => 0,
        }
    }

    /// Lets the store take effect. After an error the memory is as it was.
    pub(crate) fn store(&mut self, alloc: Global, store: Pending) -> Result<(), NoMemory>
        ensures ok { OnOk result (byte_among self.new ≡ stored_among (byte_among self.old) store) }
        ensures err { OnErr result (self.new ≡ self.old) }
    {
        let number = Page::number_at(store.address);
        let offset = Page::offset_at(store.address);
        let word = store.value.to_le_bytes();
        let bytes = &word[..store.size as usize];
        if let Some(page) = self.pages.get_mut(&number) {
            page.write(offset, bytes);
            return Ok(());
        }
        let mut page = KeptPage::zero(alloc)?;
        page.write(offset, bytes);
        self.pages.insert(number, page)?;
        Ok(())
    }

    /// Makes so many pages zero, from the page number `base` on: they are no longer kept.
    pub(crate) fn zero(&mut self, base: u32, pages: u32)
        ensures { byte_among self.new ≡ zeroed_among (byte_among self.old) base pages }
    {
        self.pages
            .retain(|number, _| *number < base || *number - base >= pages);
    }
}
