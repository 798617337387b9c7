//! A link whose wires lose and repeat frames, and which gives each message once, in order.

ghost use Rattle.std.specs.Prelude.{◌≡◌, ◌↔◌, ◌++◌, ◌<◌, ◌≤◌, [], map, length, take, drop, IsTrue, IfOk, OnOk};

use crate::windows::Window;
use crate::wires::{CAPACITY, put, put_copy, put_unmarked, take_out};
use mind_base::{NoMemory, Side, Stop};
use std::alloc::Global;
use std::collections::VecDeque;
use std::marker::Model;

/// A link from one node to another, with both of its ends and its two wires, by selective repeat.
///
/// The sender numbers its messages from 0 and keeps each until it is acknowledged; the receiver is
/// handed them in the order of their numbers, and has those that come early wait for the ones before.
/// A message frame is the number of its message, and an acknowledgement the next expected number with
/// a mask of what waits behind it. The bytes of a message stand here once, from the call that sends it
/// to the delivery that hands it over; of a message that is kept longer the number is enough, since a
/// frame with it only makes the receiver acknowledge again. After `NoMemory` a link is only to be
/// dropped.
#[derive(Debug, Drop)]
pub struct Link {
    alloc: Global,
    /// The messages that were not handed over, in the order of their numbers.
    pending: VecDeque<Vec<u8>>,
    /// From the first message that the sender keeps on, those that need no sending again.
    sender: Window,
    /// From the first pending message on, which the receiver expects, those that it has.
    receiver: Window,
    messages: Vec<u32>,
    acks: Vec<Window>,
}

impl Model for Link {
    ghost use Rattle.std.specs.Prelude.{map};
    ghost use Rattle.link_retry.specs.SelectiveRepeat.{SelectiveView};
    ghost use Rattle.link_retry.specs.Kept.{selective_view, IsKeptSelective};

    ghost Value = { SelectiveView };

    ghost view = { λ l. selective_view l.sender l.receiver (map (λ v. v.items) l.pending.items) l.messages.items l.acks.items };

    ghost invariant = { λ l. IsKeptSelective l.sender l.receiver (map (λ v. v.items) l.pending.items) l.messages.items l.acks.items };
}

impl Link {
    ghost use Rattle.mind_base.specs.declared.links.Side.TheVariants.{Messages, Acks};
    ghost use Rattle.mind_base.specs.declared.failures.Stop.TheVariants.{Spent};
    ghost use Rattle.std.specs.Prelude.{Err};
    ghost use Rattle.link_retry.specs.Link.{IsLink, AreResent, after_send, wire_of, after_lose, after_repeat, FrameDelivers, Resends};
    ghost use Rattle.link_retry.specs.SelectiveRepeat.{AreWindows, HandsOver, ChangesNoElse, DeliversSelectively, windows_after_lose, windows_after_repeat, new_selective, after_resend, unmarked};

    /// A link that nothing was sent on.
    pub fn new(alloc: Global) -> Result<Link, NoMemory>
        ensures { IfOk result (λ link. link ≡ new_selective) }
    {
        let messages = Vec::with_capacity(alloc, CAPACITY)?;
        let acks = Vec::with_capacity(alloc, CAPACITY)?;
        Ok(Link {
            alloc,
            pending: VecDeque::new(alloc),
            sender: Window::new(),
            receiver: Window::new(),
            messages,
            acks,
        })
    }

    /// Sends a message under the next number. `Spent` leaves the link as it was.
    pub fn send(&mut self, message: Vec<u8>) -> Result<(), Stop>
        ensures ok { OnOk result (self.new.link ≡ after_send self.old.link message.items) }
        ensures windows { OnOk result (self.new.windows ≡ self.old.windows) }
        ensures spent { (result ≡ Err Spent) ↔ (self.old.link.next ≡ 4294967295) }
        ensures unchanged { result ≡ Err Spent → self.new ≡ self.old }
        ensures link { IsLink self.new.link }
    {
        if self.is_spent() {
            return Err(Stop::Spent);
        }
        let number = self.next();
        self.pending.push_back(message)?;
        put(&mut self.messages, number)?;
        Ok(())
    }

    /// Whether all numbers are used up, so that nothing more can be sent.
    pub fn is_spent(&self) -> bool
        ensures { IsTrue result ↔ (self.now.link.next ≡ 4294967295) }
    {
        self.next() == u32::MAX
    }

    /// Delivers the frame of one side that `k` names, counted modulo the number of frames there, and
    /// gives the messages that the receiver is handed.
    pub fn deliver(&mut self, side: Side, k: u32) -> Result<Vec<Vec<u8>>, NoMemory>
        // What every protocol that keeps the order does, and what selective repeat does.
        ensures ok { IfOk result (λ taken. FrameDelivers self.old.link side k (map (λ v. v.items) taken.items) self.new.link) }
        ensures selective_repeat { IfOk result (λ taken. DeliversSelectively self.old side k (map (λ v. v.items) taken.items) self.new) }
        ensures link { IsLink self.new.link }
    {
        match side {
            Side::Messages => {
                let taken = self.deliver_message(k)?;
                Ok(taken)
            }
            Side::Acks => {
                self.deliver_ack(k);
                let nothing = Vec::new(self.alloc);
                Ok(nothing)
            }
        }
    }

    /// Takes the frame that `k` names out of its wire.
    pub fn lose(&mut self, side: Side, k: u32)
        ensures lost { self.new.link ≡ after_lose self.old.link side k }
        ensures windows { self.new.windows ≡ windows_after_lose self.old.windows side k }
        ensures link { IsLink self.new.link }
    {
        match side {
            Side::Messages => {
                let _frame = take_out(&mut self.messages, k);
            }
            Side::Acks => {
                let _frame = take_out(&mut self.acks, k);
            }
        }
    }

    /// Puts a copy of the frame that `k` names at the end of its wire.
    pub fn repeat(&mut self, side: Side, k: u32) -> Result<(), NoMemory>
        ensures ok { OnOk result (self.new.link ≡ after_repeat self.old.link side k) }
        ensures windows { OnOk result (self.new.windows ≡ windows_after_repeat self.old.windows side k) }
        ensures link { IsLink self.new.link }
    {
        match side {
            Side::Messages => put_copy(&mut self.messages, k),
            Side::Acks => put_copy(&mut self.acks, k),
        }
    }

    /// Puts frames of the kept messages that are not marked at the end of the message wire, up to 64
    /// frames.
    pub fn resend(&mut self) -> Result<(), NoMemory>
        ensures ok { OnOk result (Resends self.old.link self.new.link) }
        ensures selective_repeat { OnOk result (self.new.link ≡ after_resend self.old) }
        ensures windows { OnOk result (self.new.windows ≡ self.old.windows) }
        ensures link { IsLink self.new.link }
    {
        self.resend_unmarked()
    }

    /// How many frames are on the wire of one side, at most 64.
    pub fn frames(&self, side: Side) -> u32
        ensures frames { result ≡ length (wire_of self.now.link side) }
        ensures link { IsLink self.now.link }
    {
        match side {
            Side::Messages => self.messages.len() as u32,
            Side::Acks => self.acks.len() as u32,
        }
    }

    /// How many messages the sender keeps, the marked ones too.
    pub fn kept(&self) -> u32
        ensures kept { result ≡ self.now.link.kept }
        ensures link { IsLink self.now.link }
        // The windows are the link's, and the first kept message is not marked.
        ensures windows { AreWindows self.now.link self.now.windows }
    {
        self.next() - self.sender.base
    }

    /// The number of the next message.
    fn next(&self) -> u32
        ensures { result ≡ self.now.link.next }
    {
        self.receiver.base + self.pending.len() as u32
    }

    /// Delivers a message frame: the receiver is handed the message that it expects with those behind
    /// it, keeps one that comes early and drops any other; and what it has then is acknowledged.
    fn deliver_message(&mut self, k: u32) -> Result<Vec<Vec<u8>>, NoMemory>
        ensures ok { IfOk result (λ taken. FrameDelivers self.old.link Messages k (map (λ v. v.items) taken.items) self.new.link) }
        ensures selective_repeat { IfOk result (λ taken. DeliversSelectively self.old Messages k (map (λ v. v.items) taken.items) self.new) }
        ensures link { IsLink self.new.link }
    {
        let Some(number) = take_out(&mut self.messages, k) else {
            return Ok(Vec::new(self.alloc));
        };
        let taken = self.accept(number)?;
        put(&mut self.acks, self.receiver)?;
        Ok(taken)
    }

    /// Hands over the message with this number and those behind it where it is the expected one, and
    /// keeps it where it comes early.
    fn accept(&mut self, number: u32) -> Result<Vec<Vec<u8>>, NoMemory>
        requires { number < self.old.link.next }
        ensures taken { IfOk result (λ taken. self.old.link.pending ≡ map (λ v. v.items) taken.items ++ self.new.link.pending) }
        ensures handed { IfOk result (λ taken. HandsOver self.old.windows.receiver number (map (λ v. v.items) taken.items) self.new.windows.receiver) }
        ensures others { OnOk result (ChangesNoElse self.old self.new) }
        ensures link { IsLink self.new.link }
    {
        if number != self.receiver.base {
            self.receiver.keep(number);
            return Ok(Vec::new(self.alloc));
        }
        let later = self.receiver.pass();
        let count = later.base - self.receiver.base;
        match take_front(self.alloc, &mut self.pending, count) {
            Ok(taken) => {
                self.receiver = later;
                Ok(taken)
            }
            Err(NoMemory) => {
                self.pending.clear();
                self.messages.clear();
                self.acks.clear();
                self.receiver.mask = 0;
                Err(NoMemory)
            }
        }
    }

    /// Delivers an acknowledgement: the kept messages with smaller numbers are kept no longer, and
    /// those that its mask names are marked.
    fn deliver_ack(&mut self, k: u32)
        ensures ok { FrameDelivers self.old.link Acks k [] self.new.link }
        ensures selective_repeat { DeliversSelectively self.old Acks k [] self.new }
        ensures link { IsLink self.new.link }
    {
        let Some(ack) = take_out(&mut self.acks, k) else {
            return;
        };
        self.sender.join(ack);
    }

    /// Puts frames of the kept messages that are not marked at the end of the message wire, up to 64
    /// frames.
    fn resend_unmarked(&mut self) -> Result<(), NoMemory>
        ensures ok { OnOk result (self.new.link ≡ after_resend self.old) }
        ensures frames { AreResent self.old.link (unmarked self.old.link self.old.windows.sender) }
        ensures windows { OnOk result (self.new.windows ≡ self.old.windows) }
        ensures link { IsLink self.new.link }
    {
        let next = self.next();
        put_unmarked(&mut self.messages, self.sender, next)
    }
}

/// Takes so many messages off the front.
fn take_front(
    alloc: Global,
    pending: &mut VecDeque<Vec<u8>>,
    count: u32,
) -> Result<Vec<Vec<u8>>, NoMemory>
    requires { count ≤ length pending.old.items }
    ensures taken { IfOk result (λ taken. taken.items ≡ take count pending.old.items) }
    ensures left { OnOk result (pending.new.items ≡ drop count pending.old.items) }
{
    let mut taken = Vec::with_capacity(alloc, count as usize)?;
    for _ in 0..count {
        if let Some(message) = pending.pop_front() {
            taken.push(message)?;
        }
    }
    Ok(taken)
}
