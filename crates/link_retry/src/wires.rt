//! A wire of at most 64 frames.

ghost use Rattle.std.specs.Prelude.{◌≡◌, ◌-◌, ◌≤◌, ◌++◌, length, take, OnOk, OnErr};
ghost use Rattle.link_retry.specs.Wire.{frame_at, without_frame, with_frame, with_copy};
ghost use Rattle.link_retry.specs.Window.{gaps, PutsGaps};

use crate::windows::Window;
use mind_base::NoMemory;

/// The most frames that a wire holds.
pub const CAPACITY: usize = 64;

/// Puts a frame at the end. A frame put on a full wire is lost.
pub fn put<T: Copy>(wire: &mut Vec<T>, frame: T) -> Result<(), NoMemory>
    ensures ok { OnOk result (wire.new.items ≡ with_frame wire.old.items frame) }
    ensures err { OnErr result (wire.new.items ≡ wire.old.items) }
{
    if wire.len() < CAPACITY {
        wire.push(frame)?;
    }
    Ok(())
}

/// Takes out the frame that `k` names, counted modulo the wire's length; None exactly where the wire
/// is empty.
pub fn take_out<T: Copy>(wire: &mut Vec<T>, k: u32) -> Option<T>
    ensures frame { result ≡ frame_at wire.old.items k }
    ensures wire { wire.new.items ≡ without_frame wire.old.items k }
{
    if wire.is_empty() {
        return None;
    }
    let place = k as usize % wire.len();
    Some(wire.remove(place))
}

/// Puts a copy of the frame that `k` names at the end.
pub fn put_copy<T: Copy>(wire: &mut Vec<T>, k: u32) -> Result<(), NoMemory>
    ensures ok { OnOk result (wire.new.items ≡ with_copy wire.old.items k) }
    ensures err { OnErr result (wire.new.items ≡ wire.old.items) }
{
    if wire.is_empty() {
        return Ok(());
    }
    let frame = wire[k as usize % wire.len()];
    put(wire, frame)
}

/// Puts the numbers from the window's own to before `next` at the end that are not in the window, in
/// order, up to 64 frames.
pub fn put_unmarked(wire: &mut Vec<u32>, window: Window, next: u32) -> Result<(), NoMemory>
    requires fits { length wire.old.items ≤ 64 }
    requires from { window.base ≤ next }
    ensures ok { OnOk result (wire.new.items ≡ wire.old.items ++ take (64 - length wire.old.items) (gaps window (next - window.base))) }
    ensures some { PutsGaps wire.old.items window (next - window.base) wire.new.items }
{
    for number in window.base..next {
        if wire.len() >= CAPACITY {
            return Ok(());
        }
        if !window.has(number) {
            wire.push(number)?;
        }
    }
    Ok(())
}
