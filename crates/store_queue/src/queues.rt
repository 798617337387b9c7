//! The stores of a hart that wait, oldest first.

ghost use Rattle.std.specs.Prelude.{◌≡◌, ◌+◌, ◌<◌, ◌≤◌, ◌↔◌, [], ◌∷◌, ◌++◌, length, drop, slice_get, IsTrue, IsFalse, IsNone, IfSome, IfNone, All, IfOk, IsErr, OnOk, IfErr, OnErr};
ghost use Rattle.std.specs.List.{list_any};
ghost use Rattle.mind_base.specs.Pending.{covers, newest_byte as newest_byte_of};
ghost use Rattle.store_queue.specs.StoreQueue.{IsStoreQueue, IsNewestByte, store_lies_in};

use circular_buffer::HeapCircularBuffer;
use mind_base::{NoMemory, Page, Pending, Span};
use std::alloc::Global;
use std::marker::Model;

/// The stores of a thread that wait, the oldest first, at most as many as the queue's capacity, which
/// is 1 to 64. All its memory is taken when it is made.
#[derive(Debug, Drop)]
pub struct StoreQueue {
    stores: HeapCircularBuffer<Pending>,
}

impl Model for StoreQueue {
    ghost use Rattle.store_queue.specs.StoreQueue.{QueueView, queue_of, IsStoreQueue};

    ghost Value = { QueueView };

    ghost view = { λ q. queue_of q.stores.items q.stores.capacity };

    ghost invariant = { λ q. IsStoreQueue (queue_of q.stores.items q.stores.capacity) };
}

impl StoreQueue {
    /// An empty queue of that many places, 1 to 64.
    pub fn new(alloc: Global, capacity: u32) -> Result<StoreQueue, NoMemory>
        requires some { 0 < capacity }
        requires most { capacity ≤ 64 }
        ensures stores { IfOk result (λ queue. queue.stores ≡ []) }
        ensures capacity { IfOk result (λ queue. queue.capacity ≡ capacity) }
        ensures shape { IfOk result IsStoreQueue }
    {
        let stores = HeapCircularBuffer::with_capacity(alloc, capacity as usize)?;
        Ok(StoreQueue { stores })
    }

    /// Puts a store behind the others. A full queue stays as it is and hands the store back.
    pub fn push(&mut self, store: Pending) -> Result<(), Pending>
        ensures full { IsErr result ↔ (length self.old.stores ≡ self.old.capacity) }
        ensures ok { OnOk result (self.new ≡ record self.old { stores = self.old.stores ++ store ∷ [] }) }
        ensures back { IfErr result (λ back. back ≡ store) }
        ensures err { OnErr result (self.new ≡ self.old) }
        ensures shape { IsStoreQueue self.new }
    {
        // A field that is read tells that the store is aligned.
        let _address = store.address;
        self.stores.try_push_back(store)
    }

    /// The oldest store, which stays.
    pub fn front(&self) -> Option<Pending>
        ensures oldest { result ≡ slice_get self.now.stores 0 }
        ensures empty { IsNone result ↔ (self.now.stores ≡ []) }
        ensures shape { IsStoreQueue self.now }
    {
        self.stores.front().copied()
    }

    /// Takes the oldest store out.
    pub fn pop(&mut self) -> Option<Pending>
        ensures oldest { result ≡ slice_get self.old.stores 0 }
        ensures empty { IsNone result ↔ (self.old.stores ≡ []) }
        ensures rest { self.new ≡ record self.old { stores = drop 1 self.old.stores } }
        ensures shape { IsStoreQueue self.new }
    {
        self.stores.pop_front()
    }

    pub fn len(&self) -> u32
        ensures len { result ≡ length self.now.stores }
        ensures shape { IsStoreQueue self.now }
    {
        self.stores.len() as u32
    }

    /// How many stores may wait.
    pub fn capacity(&self) -> u32
        ensures capacity { result ≡ self.now.capacity }
        ensures shape { IsStoreQueue self.now }
    {
        self.stores.capacity() as u32
    }

    /// Whether as many stores wait as there are places.
    pub fn is_full(&self) -> bool
        ensures full { IsTrue result ↔ (length self.now.stores ≡ self.now.capacity) }
        ensures shape { IsStoreQueue self.now }
    {
        self.stores.is_full()
    }

    /// The byte for `address` in the newest store that covers it; None exactly where no store does.
    pub fn newest_byte(&self, address: u32) -> Option<u8>
        ensures byte { result ≡ newest_byte_of self.now.stores address }
        ensures newest { IfSome result (IsNewestByte self.now.stores address) }
        ensures none { IfNone result (All (λ store. IsFalse (covers store address)) self.now.stores) }
    {
        let mut byte = None;
        for store in self.stores.iter() {
            if let Some(newer) = store.covered_byte(address) {
                byte = Some(newer);
            }
        }
        byte
    }

    /// Whether a store lies in one of the `pages` pages from page number `base` on.
    pub fn holds_in(&self, base: u32, pages: u32) -> bool
        requires { base + pages ≤ 1048576 }
        ensures { result ≡ list_any (store_lies_in base pages) self.now.stores }
    {
        self.stores.iter().any(|store| lies_in(store, base, pages))
    }
}

/// Whether the store lies in one of the `pages` pages from page number `base` on.
fn lies_in(store: &Pending, base: u32, pages: u32) -> bool
    requires { base + pages ≤ 1048576 }
    ensures { result ≡ store_lies_in base pages store.now }
{
    if pages == 0 {
        return false;
    }
    let span = Span {
        domain: 0,
        base,
        pages,
    };
    span.has(Page::of(0, store.address))
}
