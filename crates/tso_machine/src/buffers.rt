//! The buffered stores of a thread, oldest first.

ghost use Rattle.std.specs.Prelude.{◌≡◌, ◌<◌, ◌+◌, ◌∷◌, ◌++◌, [], OnOk, OnErr, length, drop, slice_get};
ghost use Rattle.mind_base.specs.Pending.{newest_byte as newest_byte_of};
ghost use Rattle.std.specs.List.{list_any};
ghost use Rattle.mind_base.specs.Inside.{stores_in};
ghost use Rattle.hart_effect.specs.Deed.{holds_stores};

use mind_base::{NoMemory, Pending, Place, Span};
use std::alloc::Global;
use std::collections::VecDeque;
use std::marker::Model;

/// The stores that a thread has not yet drained, the oldest first, as many as it likes.
#[derive(Debug, Drop)]
pub struct Buffer {
    stores: VecDeque<Pending>,
}

impl Model for Buffer {
    ghost use Rattle.std.specs.Prelude.{List};
    ghost use Rattle.mind_base.specs.Pending.{PendingView};

    ghost Value = { List PendingView };

    ghost view = { λ b. b.stores.items };
}

impl Buffer {
    /// An empty buffer. Takes no memory.
    pub fn new(alloc: Global) -> Buffer
        ensures { result ≡ [] }
    {
        Buffer {
            stores: VecDeque::new(alloc),
        }
    }

    pub fn len(&self) -> usize
        ensures { result ≡ length self.now }
    {
        self.stores.len()
    }

    /// Whether a store waits.
    pub fn holds_stores(&self) -> bool
        ensures { result ≡ holds_stores self.now }
    {
        !self.stores.is_empty()
    }

    /// Puts a store behind the others. After an error the buffer is as it was.
    pub fn push(&mut self, store: Pending) -> Result<(), NoMemory>
        ensures ok { OnOk result (self.new ≡ self.old ++ store ∷ []) }
        ensures err { OnErr result (self.new ≡ self.old) }
    {
        self.stores.push_back(store)?;
        Ok(())
    }

    /// The oldest store, which stays.
    pub fn front(&self) -> Option<Pending>
        ensures { result ≡ slice_get self.now 0 }
    {
        self.stores.front().copied()
    }

    /// Takes the oldest store out, if there is one.
    pub fn pop(&mut self)
        ensures { self.new ≡ drop 1 self.old }
    {
        self.stores.pop_front();
    }

    /// The byte for `address` in the newest store that covers it.
    pub fn newest_byte(&self, address: u32) -> Option<u8>
        ensures { result ≡ newest_byte_of self.now address }
    {
        let mut byte = None;
        for store in self.stores.iter() {
            if let Some(newer) = store.covered_byte(address) {
                byte = Some(newer);
            }
        }
        byte
    }

    /// Whether a store lies in a page of the span, for a thread of this domain.
    pub fn holds_store_in(&self, span: &Span, domain: u8) -> bool
        requires { domain < 16 }
        ensures { result ≡ list_any (stores_in span.now domain) self.now }
    {
        self.stores.iter().any(|store| lies_in(store, span, domain))
    }
}

/// Whether a store of a thread of this domain lies in a page of the span.
fn lies_in(store: &Pending, span: &Span, domain: u8) -> bool
    requires { domain < 16 }
    ensures { result ≡ stores_in span.now domain store.now }
{
    span.has(Place::of(domain, store.address).page())
}
