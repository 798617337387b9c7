//! What a thread finds around it in flat memory.

ghost use Rattle.std.specs.Prelude.{◌≡◌};
ghost use Rattle.flat_memory.specs.FlatMemory.{byte_in};
ghost use Rattle.hart_effect.specs.Deed.{holds_reservation};
ghost use Rattle.protect_table.specs.Protect.{permission_at};

use crate::buffers::Buffer;
use flat_memory::FlatMemory;
use hart_effect::Surroundings;
use mind_base::{Granule, Page, Perm, Place};
use protect_table::Protect;

/// What a thread of the machine finds around its core.
#[derive(Drop)]
pub struct FlatSurroundings<'a> {
    pub memory: &'a FlatMemory,
    pub perms: &'a Protect,
    pub buffer: &'a Buffer,
    pub reserved: Option<Granule>,
}

impl<'a> Surroundings for FlatSurroundings<'a> {
    ghost bytes = { λ a. byte_in a.memory.now };

    ghost perms = { λ a. permission_at a.perms.now };

    ghost stores = { λ a. a.buffer.now };

    ghost reserved = { λ a. a.reserved };

    fn byte(&self, place: Place) -> u8 {
        self.memory.byte(place)
    }

    fn perm(&self, page: Page) -> Perm {
        self.perms.perm(page)
    }

    fn waiting(&self) -> usize {
        self.buffer.len()
    }

    fn newest_byte(&self, address: u32) -> Option<u8> {
        self.buffer.newest_byte(address)
    }

    fn holds_reservation(&self, granule: Granule) -> bool {
        is_on(self.reserved, granule)
    }
}

/// Whether a reservation is on the granule.
pub fn is_on(reserved: Option<Granule>, granule: Granule) -> bool
    ensures { result ≡ holds_reservation reserved granule }
{
    match reserved {
        None => false,
        Some(reserved) => reserved.domain == granule.domain && reserved.number == granule.number,
    }
}
