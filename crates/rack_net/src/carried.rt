//! Messages as bytes on a link, and read again.

ghost use Rattle.std.specs.Prelude.{◌≡◌, ◌↔◌, ◌++◌, ◌∷◌, [], Err, map, All, IfOk, OnOk};
ghost use Rattle.mind_base.specs.declared.failures.Stop.TheVariants.{Spent};
ghost use Rattle.link_retry.specs.Link.{after_send, FrameDelivers, after_lose, after_repeat, Resends};
ghost use Rattle.link_retry.specs.SelectiveRepeat.{DeliversSelectively, windows_after_lose, windows_after_repeat, after_resend};
ghost use Rattle.wire_msg.specs.Spelling.{spelling};
ghost use Rattle.wire_msg.specs.WellFormed.{FieldsAgree, IsWellFormed};
ghost use Rattle.rack_net.specs.Net.{spelled, with_windows};
ghost use Rattle.rack_net.specs.Kept.{IsHeld, IsSpelled, link_of, message_spelled};

use link_retry::Link;
use mind_base::{NoMemory, Side, Stop};
use std::alloc::Global;
use wire_msg::{Msg, WireRefusal, decode, encode};

/// Bytes enough for a message without an image.
const WITHOUT_IMAGE: usize = 16;

/// Sends a message on a link. `Spent` leaves the link as it was.
pub(crate) fn send_on(link: &mut Link, alloc: Global, msg: &Msg) -> Result<(), Stop>
    requires fields { FieldsAgree msg.now }
    requires held { IsHeld link.old }
    ensures fifo { OnOk result ((link_of link.new).pending ≡ (link_of link.old).pending ++ msg.now ∷ []) }
    ensures link { OnOk result (spelled (link_of link.new) ≡ after_send (spelled (link_of link.old)) (spelling msg.now)) }
    ensures windows { OnOk result ((link_of link.new).windows ≡ (link_of link.old).windows) }
    ensures held { OnOk result (IsHeld link.new) }
    ensures formed { OnOk result (IsWellFormed msg.now) }
    ensures spent { (result ≡ Err Spent) ↔ (link.old.link.next ≡ 4294967295) }
    ensures unchanged { result ≡ Err Spent → link.new ≡ link.old }
{
    if link.is_spent() {
        return Err(Stop::Spent);
    }
    let mut bytes = Vec::with_capacity(alloc, WITHOUT_IMAGE)?;
    match encode(msg, &mut bytes) {
        Ok(()) => link.send(bytes),
        Err(NoMemory) => Err(Stop::NoMemory),
    }
}

/// Delivers a frame of a link, and reads the messages that the receiver takes.
pub(crate) fn deliver_on(
    link: &mut Link,
    alloc: Global,
    side: Side,
    k: u32,
) -> Result<Vec<Msg>, NoMemory>
    requires { IsHeld link.old }
    ensures fifo { IfOk result (λ taken. (link_of link.old).pending ≡ taken.items ++ (link_of link.new).pending) }
    ensures link { IfOk result (λ taken. FrameDelivers (spelled (link_of link.old)) side k (map spelling taken.items) (spelled (link_of link.new))) }
    ensures selective_repeat { IfOk result (λ taken. DeliversSelectively (with_windows (link_of link.old)) side k (map spelling taken.items) (with_windows (link_of link.new))) }
    ensures formed { IfOk result (λ taken. All IsWellFormed taken.items) }
    ensures held { OnOk result (IsHeld link.new) }
{
    let taken = link.deliver(side, k)?;
    let msgs = read_all(alloc, taken.as_slice())?;
    Ok(msgs)
}

/// Takes a frame out of a wire of a link.
pub(crate) fn lose_on(link: &mut Link, side: Side, k: u32)
    requires { IsHeld link.old }
    ensures fifo { (link_of link.new).pending ≡ (link_of link.old).pending }
    ensures link { spelled (link_of link.new) ≡ after_lose (spelled (link_of link.old)) side k }
    ensures windows { (link_of link.new).windows ≡ windows_after_lose (link_of link.old).windows side k }
    ensures held { IsHeld link.new }
{
    link.lose(side, k);
}

/// Puts a copy of a frame at the end of its wire.
pub(crate) fn repeat_on(link: &mut Link, side: Side, k: u32) -> Result<(), NoMemory>
    requires { IsHeld link.old }
    ensures fifo { OnOk result ((link_of link.new).pending ≡ (link_of link.old).pending) }
    ensures link { OnOk result (spelled (link_of link.new) ≡ after_repeat (spelled (link_of link.old)) side k) }
    ensures windows { OnOk result ((link_of link.new).windows ≡ windows_after_repeat (link_of link.old).windows side k) }
    ensures held { OnOk result (IsHeld link.new) }
{
    link.repeat(side, k)
}

/// Puts frames of the messages that a link keeps at the end of its message wire.
pub(crate) fn resend_on(link: &mut Link) -> Result<(), NoMemory>
    requires { IsHeld link.old }
    ensures fifo { OnOk result ((link_of link.new).pending ≡ (link_of link.old).pending) }
    ensures link { OnOk result (Resends (spelled (link_of link.old)) (spelled (link_of link.new))) }
    ensures selective_repeat { OnOk result (spelled (link_of link.new) ≡ after_resend (with_windows (link_of link.old))) }
    ensures windows { OnOk result ((link_of link.new).windows ≡ (link_of link.old).windows) }
    ensures held { OnOk result (IsHeld link.new) }
{
    link.resend()
}

/// The messages that the texts spell.
fn read_all(alloc: Global, texts: &[Vec<u8>]) -> Result<Vec<Msg>, NoMemory>
    requires { All IsSpelled (map (λ v. v.items) texts.now) }
    ensures { IfOk result (λ msgs. msgs.items ≡ map message_spelled (map (λ v. v.items) texts.now)) }
{
    let mut msgs = Vec::new(alloc);
    for text in texts {
        msgs.push(read_one(alloc, text.as_slice())?)?;
    }
    Ok(msgs)
}

/// The message that the bytes spell.
fn read_one(alloc: Global, bytes: &[u8]) -> Result<Msg, NoMemory>
    requires { IsSpelled bytes.now }
    ensures { IfOk result (λ msg. msg ≡ message_spelled bytes.now) }
{
    match decode(alloc, bytes) {
        Ok(msg) => Ok(msg),
        Err(WireRefusal::NoMemory) => Err(NoMemory),
        Err(WireRefusal::BadFrame) => unreachable!(),
    }
}
