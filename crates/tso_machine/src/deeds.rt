//! What a deed does to memory.

ghost use Rattle.std.specs.Prelude.{◌≡◌, ◌<◌, OnOk, OnErr};
ghost use Rattle.flat_memory.specs.FlatMemory.{byte_in};
ghost use Rattle.tso_machine.specs.Storing.{stored_by};

use flat_memory::FlatMemory;
use mind_base::{NoMemory, Pending, Place};

/// What a thread did in one step: nothing, where it could not; it alone changed; or it changed and this
/// store took effect in memory.
#[derive(Clone, Copy, Debug, PartialEq, Eq)]
pub enum Done {
    Nothing,
    Changed,
    Stored { store: Pending },
}

/// The store of a thread of the domain takes effect in memory. After an error memory is as it was.
pub fn take_effect(store: Pending, domain: u8, memory: &mut FlatMemory) -> Result<(), NoMemory>
    requires { domain < 16 }
    ensures ok { OnOk result (byte_in memory.new ≡ stored_by (byte_in memory.old) domain store) }
    ensures err { OnErr result (memory.new ≡ memory.old) }
{
    let place = Place::of(domain, store.address);
    let there = Pending::of(place.address, store.size, store.value);
    memory.store(place.domain, there)?;
    Ok(())
}
