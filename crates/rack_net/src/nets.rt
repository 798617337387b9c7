//! All links of a rack.

ghost use Rattle.std.specs.Prelude.{◌≡◌, ◌↔◌, ◌++◌, ◌∷◌, [], Err, map, All, IfOk, OnOk};
ghost use Rattle.mind_base.specs.declared.failures.Stop.TheVariants.{Spent};
ghost use Rattle.link_retry.specs.Link.{after_send, FrameDelivers, after_lose, after_repeat, Resends};
ghost use Rattle.link_retry.specs.SelectiveRepeat.{DeliversSelectively, windows_after_lose, windows_after_repeat, after_resend};
ghost use Rattle.wire_msg.specs.Spelling.{spelling};
ghost use Rattle.wire_msg.specs.WellFormed.{FieldsAgree, IsWellFormed};
ghost use Rattle.rack_net.specs.Net.{IsLinkOf, IsNet, ChangesOnly, FindsFrame, FindsKept, links_of, empty_link, spelled, with_windows};

use crate::carried::{deliver_on, lose_on, repeat_on, resend_on, send_on};
use crate::places::{name, place};
use crate::rows::{empty_links, first_busy, first_keeping, give_up, note_link};
use crate::sets::LinkSet;
use link_retry::Link;
use mind_base::{LinkName, NoMemory, Side, Stop};
use std::alloc::Global;
use std::marker::Model;
use wire_msg::Msg;

/// All links of a rack: up from and down to each compute blade, to and from each memory blade.
///
/// Each is a queue of messages: what was sent first is taken first, each message once, whatever the
/// network does with the frames. After `NoMemory` a net has no links, and is only to be dropped.
#[derive(Debug, Drop)]
pub struct Net {
    alloc: Global,
    blades: u8,
    memories: u8,
    /// Up and down of each compute blade, then to and from each memory blade.
    links: Vec<Link>,
    /// Those of the first 64 links that have a frame on a wire.
    busy: LinkSet,
    /// Those of the first 64 links that keep messages.
    keeping: LinkSet,
}

impl Model for Net {
    ghost use Rattle.rack_net.specs.Net.{NetView};
    ghost use Rattle.rack_net.specs.Kept.{net_view, IsKeptNet};

    ghost Value = { NetView };

    ghost view = { λ n. net_view n.blades n.memories n.links.items };

    ghost invariant = { λ n. IsKeptNet n.blades n.memories n.links.items n.busy n.keeping };
}

impl Net {
    /// The links of so many compute blades and memory blades. Nothing was sent on them.
    pub fn new(alloc: Global, blades: u8, memories: u8) -> Result<Net, NoMemory>
        ensures blades { IfOk result (λ net. net.blades ≡ blades) }
        ensures memories { IfOk result (λ net. net.memories ≡ memories) }
        ensures empty { IfOk result (λ net. links_of net ≡ (λ _. empty_link)) }
        ensures net { IfOk result IsNet }
    {
        let count = 2 * (blades as usize + memories as usize);
        let links = empty_links(alloc, count)?;
        Ok(Net {
            alloc,
            blades,
            memories,
            links,
            busy: LinkSet::none(),
            keeping: LinkSet::none(),
        })
    }

    /// Sends a message on a link under the link's next number. `Spent` leaves the net as it was.
    pub fn send(&mut self, link: LinkName, msg: &Msg) -> Result<(), Stop>
        requires of_net { IsLinkOf self.old link }
        requires fields { FieldsAgree msg.now }
        ensures fifo { OnOk result ((links_of self.new link).pending ≡ (links_of self.old link).pending ++ msg.now ∷ []) }
        ensures link { OnOk result (spelled (links_of self.new link) ≡ after_send (spelled (links_of self.old link)) (spelling msg.now)) }
        ensures windows { OnOk result ((links_of self.new link).windows ≡ (links_of self.old link).windows) }
        ensures only { OnOk result (ChangesOnly link self.old self.new) }
        ensures formed { OnOk result (IsWellFormed msg.now) }
        ensures spent { (result ≡ Err Spent) ↔ ((links_of self.old link).next ≡ 4294967295) }
        ensures unchanged { result ≡ Err Spent → self.new ≡ self.old }
        ensures net { IsNet self.new }
    {
        let at = place(self.blades, link);
        match send_on(&mut self.links[at], self.alloc, msg) {
            Ok(()) => {
                note_link(&self.links[at], at, &mut self.busy, &mut self.keeping);
                Ok(())
            }
            Err(Stop::Spent) => Err(Stop::Spent),
            Err(Stop::NoMemory) => {
                self.busy = LinkSet::none();
                self.keeping = LinkSet::none();
                give_up(&mut self.blades, &mut self.memories, &mut self.links);
                Err(Stop::NoMemory)
            }
        }
    }

    /// Delivers the frame of one side of a link that `k` names, counted modulo the number of frames
    /// there, and gives the messages that the receiver takes.
    pub fn deliver(&mut self, link: LinkName, side: Side, k: u32) -> Result<Vec<Msg>, NoMemory>
        requires { IsLinkOf self.old link }
        // What is taken is the front of what was pending, and leaves it.
        ensures fifo { IfOk result (λ taken. (links_of self.old link).pending ≡ taken.items ++ (links_of self.new link).pending) }
        ensures link { IfOk result (λ taken. FrameDelivers (spelled (links_of self.old link)) side k (map spelling taken.items) (spelled (links_of self.new link))) }
        // Of the protocols that keep the order, this is selective repeat.
        ensures selective_repeat { IfOk result (λ taken. DeliversSelectively (with_windows (links_of self.old link)) side k (map spelling taken.items) (with_windows (links_of self.new link))) }
        ensures formed { IfOk result (λ taken. All IsWellFormed taken.items) }
        ensures only { OnOk result (ChangesOnly link self.old self.new) }
        ensures net { IsNet self.new }
    {
        let at = place(self.blades, link);
        match deliver_on(&mut self.links[at], self.alloc, side, k) {
            Ok(taken) => {
                note_link(&self.links[at], at, &mut self.busy, &mut self.keeping);
                Ok(taken)
            }
            Err(NoMemory) => {
                self.busy = LinkSet::none();
                self.keeping = LinkSet::none();
                give_up(&mut self.blades, &mut self.memories, &mut self.links);
                Err(NoMemory)
            }
        }
    }

    /// Takes the frame that `k` names out of its wire.
    pub fn lose(&mut self, link: LinkName, side: Side, k: u32)
        requires { IsLinkOf self.old link }
        ensures fifo { (links_of self.new link).pending ≡ (links_of self.old link).pending }
        ensures link { spelled (links_of self.new link) ≡ after_lose (spelled (links_of self.old link)) side k }
        ensures windows { (links_of self.new link).windows ≡ windows_after_lose (links_of self.old link).windows side k }
        ensures only { ChangesOnly link self.old self.new }
        ensures net { IsNet self.new }
    {
        let at = place(self.blades, link);
        lose_on(&mut self.links[at], side, k);
        note_link(&self.links[at], at, &mut self.busy, &mut self.keeping);
    }

    /// Puts a copy of the frame that `k` names at the end of its wire.
    pub fn repeat(&mut self, link: LinkName, side: Side, k: u32) -> Result<(), NoMemory>
        requires { IsLinkOf self.old link }
        ensures fifo { OnOk result ((links_of self.new link).pending ≡ (links_of self.old link).pending) }
        ensures link { OnOk result (spelled (links_of self.new link) ≡ after_repeat (spelled (links_of self.old link)) side k) }
        ensures windows { OnOk result ((links_of self.new link).windows ≡ windows_after_repeat (links_of self.old link).windows side k) }
        ensures only { OnOk result (ChangesOnly link self.old self.new) }
        ensures net { IsNet self.new }
    {
        let at = place(self.blades, link);
        match repeat_on(&mut self.links[at], side, k) {
            Ok(()) => {
                note_link(&self.links[at], at, &mut self.busy, &mut self.keeping);
                Ok(())
            }
            Err(NoMemory) => {
                self.busy = LinkSet::none();
                self.keeping = LinkSet::none();
                give_up(&mut self.blades, &mut self.memories, &mut self.links);
                Err(NoMemory)
            }
        }
    }

    /// Puts frames of the messages that a link keeps at the end of its message wire, up to 64 frames.
    pub fn resend(&mut self, link: LinkName) -> Result<(), NoMemory>
        requires { IsLinkOf self.old link }
        ensures fifo { OnOk result ((links_of self.new link).pending ≡ (links_of self.old link).pending) }
        ensures link { OnOk result (Resends (spelled (links_of self.old link)) (spelled (links_of self.new link))) }
        ensures selective_repeat { OnOk result (spelled (links_of self.new link) ≡ after_resend (with_windows (links_of self.old link))) }
        ensures windows { OnOk result ((links_of self.new link).windows ≡ (links_of self.old link).windows) }
        ensures only { OnOk result (ChangesOnly link self.old self.new) }
        ensures net { IsNet self.new }
    {
        let at = place(self.blades, link);
        match resend_on(&mut self.links[at]) {
            Ok(()) => {
                note_link(&self.links[at], at, &mut self.busy, &mut self.keeping);
                Ok(())
            }
            Err(NoMemory) => {
                self.busy = LinkSet::none();
                self.keeping = LinkSet::none();
                give_up(&mut self.blades, &mut self.memories, &mut self.links);
                Err(NoMemory)
            }
        }
    }

    /// The first wire that is not empty, in the order u0, d0, u1, d1, .. and t0, f0, t1, f1, .., of each
    /// link the wire of its messages before that of its acknowledgements. None where all are empty.
    pub fn first_frame(&self) -> Option<(LinkName, Side)>
        ensures first { FindsFrame self.now result }
        ensures net { IsNet self.now }
    {
        match first_busy(self.links.as_slice(), self.busy) {
            None => None,
            Some((at, side)) => Some((name(self.blades, self.memories, at), side)),
        }
    }

    /// The first link, in the same order, that keeps messages. None where none does.
    pub fn first_kept(&self) -> Option<LinkName>
        ensures first { FindsKept self.now result }
        ensures net { IsNet self.now }
    {
        match first_keeping(self.links.as_slice(), self.keeping) {
            None => None,
            Some(at) => Some(name(self.blades, self.memories, at)),
        }
    }
}
