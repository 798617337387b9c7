//! What a hart finds in the pages that its blade holds.

ghost use Rattle.std.specs.Prelude.{◌≡◌};
ghost use Rattle.page_cache.specs.PageCache.{frame_of, is_writable as is_writable_of};
ghost use Rattle.compute_blade.specs.Frames.{byte_held, held_byte, held_perm, held_tag as held_tag_of, if_same_tag as if_same_tag_of, still_reserved as still_reserved_of};

use crate::Reservation;
use hart_effect::Surroundings;
use mind_base::{Granule, Page, Perm, Place};
use page_cache::PageCache;
use store_queue::StoreQueue;

/// The pages that the blade holds, as a hart with this queue and this reservation sees them.
#[derive(Drop)]
pub struct Sight<'a> {
    pub queue: &'a StoreQueue,
    pub cache: &'a PageCache,
    pub reserved: Option<Reservation>,
}

impl<'a> Surroundings for Sight<'a> {
    ghost bytes = { λ s. held_byte s.cache.now.entries };

    ghost perms = { λ s. held_perm s.cache.now.entries };

    ghost stores = { λ s. s.queue.now.stores };

    ghost reserved = { λ s. still_reserved_of s.cache.now.entries s.reserved };

    fn byte(&self, place: Place) -> u8 {
        byte_in(self.cache, place)
    }

    fn perm(&self, page: Page) -> Perm {
        perm_of(self.cache, page)
    }

    fn waiting(&self) -> usize {
        self.queue.len() as usize
    }

    fn newest_byte(&self, address: u32) -> Option<u8> {
        self.queue.newest_byte(address)
    }

    fn holds_reservation(&self, granule: Granule) -> bool {
        match still_reserved(self.cache, self.reserved) {
            None => false,
            Some(reserved) => reserved == granule,
        }
    }
}

/// The byte of a place; 0 where its page is not held.
fn byte_in(cache: &PageCache, place: Place) -> u8
    ensures { result ≡ byte_held cache.now.entries place }
{
    match cache.find(place.page()) {
        None => 0,
        Some(frame) => frame.image.byte(place.offset()),
    }
}

/// What the domain of a page may do with it; nothing where it is not held.
fn perm_of(cache: &PageCache, page: Page) -> Perm
    ensures { result ≡ held_perm cache.now.entries page }
{
    match cache.find(page) {
        None => Perm::No,
        Some(frame) => frame.perm,
    }
}

/// Whether a page is held and may be written.
pub fn is_writable(cache: &PageCache, page: Page) -> bool
    ensures { result ≡ is_writable_of (frame_of page cache.now.entries) }
{
    match cache.find(page) {
        None => false,
        Some(frame) => frame.writable,
    }
}

/// The tag of a granule; None where its page is not held.
pub fn tag_of(cache: &PageCache, granule: Granule) -> Option<u64>
    ensures { result ≡ held_tag_of cache.now.entries granule }
{
    match cache.find(granule.page()) {
        None => None,
        Some(frame) => Some(frame.image.tag(granule.index_in_page())),
    }
}

/// The granule of a reservation, where it still has the tag that LR saw.
fn if_same_tag(tag: Option<u64>, kept: Reservation) -> Option<Granule>
    ensures { result ≡ if_same_tag_of tag kept }
{
    match tag {
        None => None,
        Some(tag) => {
            if tag == kept.tag {
                Some(kept.granule)
            } else {
                None
            }
        }
    }
}

/// The granule on which a reservation still stands: no store took effect there since.
fn still_reserved(cache: &PageCache, reserved: Option<Reservation>) -> Option<Granule>
    ensures { result ≡ still_reserved_of cache.now.entries reserved }
{
    match reserved {
        None => None,
        Some(kept) => if_same_tag(tag_of(cache, kept.granule), kept),
    }
}
