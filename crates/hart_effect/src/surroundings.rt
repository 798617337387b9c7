//! What a hart finds around it: the bytes, the permissions and its own buffered stores.

ghost use Rattle.std.specs.Prelude.{◌≡◌, ℕ, List, Option, length};
ghost use Rattle.hart_effect.specs.Deed.{holds_reservation};
ghost use Rattle.mind_base.specs.Page.{PageView};
ghost use Rattle.mind_base.specs.Pending.{PendingView, newest_byte as newest_byte_of};
ghost use Rattle.mind_base.specs.Place.{Granule as GranuleView};
ghost use Rattle.mind_base.specs.declared.commands.Perm.{Perm as PermView};

use mind_base::{Granule, Page, Perm, Place};

/// What an instruction finds around its core: the bytes of memory, what its domain may do with a page, the
/// stores that the thread has not yet drained, and its reservation.
pub trait Surroundings {
    /// The byte at an address of a domain.
    ghost bytes: { Self → ℕ → ℕ → ℕ };

    /// The permission of a page.
    ghost perms: { Self → PageView → PermView };

    /// The buffered stores, the oldest first.
    ghost stores: { Self → List PendingView };

    /// The granule on which the thread's reservation stands.
    ghost reserved: { Self → Option GranuleView };

    fn byte(&self, place: Place) -> u8
        ensures { result ≡ bytes self.now place.domain place.address };

    fn perm(&self, page: Page) -> Perm
        ensures { result ≡ perms self.now page };

    /// How many stores the thread buffers.
    fn waiting(&self) -> usize
        ensures { result ≡ length (stores self.now) };

    /// The byte for an address in the newest buffered store that covers it.
    fn newest_byte(&self, address: u32) -> Option<u8>
        ensures { result ≡ newest_byte_of (stores self.now) address };

    /// Whether the thread's reservation is on the granule.
    fn holds_reservation(&self, granule: Granule) -> bool
        ensures { result ≡ holds_reservation (reserved self.now) granule };
}
