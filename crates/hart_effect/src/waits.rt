//! Whether a hart must drain its buffer before its next instruction.

ghost use Rattle.std.specs.Prelude.{◌≡◌, List, length};
ghost use Rattle.hart_effect.specs.Deed.{wants_empty, is_store as is_store_of, must_wait as must_wait_of, drains_first as drains_first_of};
ghost use Rattle.mind_base.specs.Pending.{PendingView};

use crate::Found;
use hart_core::Act;

/// Whether what is asked wants the thread's buffer empty: a locked operation or an ordering fence.
fn needs_empty(asked: Act) -> bool
    ensures { result ≡ wants_empty asked }
{
    match asked {
        Act::Locked { .. } => true,
        Act::Fence { drains } => drains,
        Act::Next { .. }
        | Act::Load { .. }
        | Act::Store { .. }
        | Act::Call
        | Act::Jumped { .. }
        | Act::Broke => false,
    }
}

fn is_store(asked: Act) -> bool
    ensures { result ≡ is_store_of asked }
{
    match asked {
        Act::Store { .. } => true,
        Act::Next { .. }
        | Act::Load { .. }
        | Act::Locked { .. }
        | Act::Fence { .. }
        | Act::Call
        | Act::Jumped { .. }
        | Act::Broke => false,
    }
}

/// Whether what is asked must wait until the thread's stores, so many, have drained.
pub(crate) fn must_wait(asked: Act, waiting: usize) -> bool
    ensures { (buffer : List PendingView) → length buffer ≡ waiting → result ≡ must_wait_of asked buffer }
{
    needs_empty(asked) && waiting != 0
}

/// Whether the oldest of so many stores of a thread must drain before it does what it found: the
/// instruction must wait for an empty buffer, or it is a store and there are as many as the thread's queue
/// has places.
pub fn drains_first(found: Found, waiting: usize, places: usize) -> bool
    ensures { (buffer : List PendingView) → length buffer ≡ waiting → result ≡ drains_first_of found buffer places }
{
    match found {
        Found::Outside => false,
        Found::Unknown { .. } => false,
        Found::Asks { asked } => must_wait(asked, waiting)
            || (is_store(asked) && waiting == places),
    }
}
