//! A rack: its blades, its switch, its memory blades and its links, and the events that it goes through.

ghost use Rattle.std.specs.Prelude.{◌≡◌, ◌↔◌, [], All, Err, IfOk, IsTrue, List, OnErr, OnOk};
ghost use Rattle.mind_base.specs.Fit.{IsFit, FitImages};
ghost use Rattle.mind_base.specs.declared.images.Image.{Image as image};
ghost use Rattle.mind_base.specs.declared.failures.Stop.TheVariants.{Spent};
ghost use Rattle.compute_blade.specs.Blade.{BeginsWith};
ghost use Rattle.rack_net.specs.Net.{FindsFrame, FindsKept};
ghost use Rattle.rack_core.specs.Calls.{HasNoFrame, HasSpentNumber, IsEventFor, IsKept, IsQuiet, KeepsNothing, Notes};
ghost use Rattle.rack_core.specs.Events.{Leads};
ghost use Rattle.rack_core.specs.Leaves.{Leaves};
ghost use Rattle.rack_core.specs.Noted.{AreInPlace, CarriesOn};
ghost use Rattle.rack_core.specs.StandLog.{StandsForLog};
ghost use Rattle.rack_core.specs.Start.{IsStart};

mod blades;
mod handing;
mod network;

use crate::acts::HartAct;
use crate::starts::{start_blades, start_memories};
use compute_blade::ComputeBlade;
use memory_blade::MemoryBlade;
use mind_base::{Event, Image, LinkName, Log, NoMemory, RackPlan, Side, Stop};
use rack_net::Net;
use std::alloc::Global;
use std::marker::Model;
use switch_core::SwitchCore;

/// The rack of a plan, of which it keeps a copy: its compute blades by their numbers, the switch, its memory
/// blades by theirs, and the links between them; and how many commands were asked, none so far.
///
/// After an error it is only to be looked at and dropped.
#[derive(Drop)]
pub struct Rack {
    alloc: Global,
    plan: RackPlan,
    blades: Vec<ComputeBlade>,
    switch: SwitchCore,
    memories: Vec<MemoryBlade>,
    net: Net,
    asked: u32,
}

impl Model for Rack {
    ghost use Rattle.std.specs.Coded.{codes};
    ghost use Rattle.protect_table.specs.Protect.{protect_code};
    ghost use Rattle.rack_core.specs.Rack.{RackView};

    ghost Value = { RackView };

    ghost coded = { Prim.hlevel (codes, protect_code) };

    ghost view = { λ r. record { plan = r.plan; blades = r.blades.items; switch = r.switch; memories = r.memories.items; net = r.net; asked = r.asked } };
}

impl Rack {
    /// The rack of a plan before its first event: each thread stands at the start of its image, no blade
    /// holds a page, all pages are zero, and no message is under way.
    pub fn start(alloc: Global, plan: &RackPlan) -> Result<Rack, NoMemory>
        requires { IsFit plan.now }
        ensures start { IfOk result (IsStart plan.now) }
        ensures kept { IfOk result IsKept }
        ensures stands { IfOk result (λ rack. (images : List image) → StandsForLog images rack []) }
    {
        let blades = start_blades(alloc, plan)?;
        let switch = SwitchCore::new(alloc, plan)?;
        let memories = start_memories(alloc, plan.memories.as_slice())?;
        let net = Net::new(alloc, plan.frames.len() as u8, plan.memories.len() as u8)?;
        let plan = plan.copy(alloc)?;
        Ok(Rack {
            alloc,
            plan,
            blades,
            switch,
            memories,
            net,
            asked: 0,
        })
    }

    /// One event of a schedule: the node that it names acts, or a wire changes. What a node sends goes onto
    /// its links, and what a link gives is handed to the node at its end, which handles it at once. `Spent`
    /// comes where a number would pass its last value.
    pub fn event(&mut self, event: &Event, images: &[Image], log: &mut Log) -> Result<(), Stop>
        requires kept { IsKept self.old }
        requires fits { IsEventFor self.old.plan event.now }
        requires images { FitImages self.old.plan.images images.now }
        ensures leads { OnOk result (Notes (Leads images.now event.now self.old self.new) log.old.notes log.new.notes) }
        ensures kept { OnOk result (IsKept self.new) }

        // The labels noted carry on the run of the machine for which the rack stood; the notes may stand in the event.
        ensures stands { OnOk result (Notes (CarriesOn images.now self.old self.new) log.old.notes log.new.notes) }
        ensures places { OnOk result (Notes (AreInPlace self.old.plan event.now) log.old.notes log.new.notes) }
        ensures spent { result ≡ Err Spent → HasSpentNumber self.new }
        ensures err { OnErr result (BeginsWith log.old.notes log.new.notes) }
        ensures plan { self.new.plan ≡ self.old.plan }
    {
        self.lead(event, images, log)
    }

    /// The first wire that is not empty, in the order u0, d0, u1, d1, .. and t0, f0, t1, f1, .., of each
    /// link the wire of its messages before that of its acknowledgements. None where all are empty.
    pub fn first_frame(&self) -> Option<(LinkName, Side)>
        ensures { FindsFrame self.now.net result }
    {
        self.net.first_frame()
    }

    /// The first link, in the same order, that keeps messages. None where none does.
    pub fn first_kept(&self) -> Option<LinkName>
        ensures { FindsKept self.now.net result }
    {
        self.net.first_kept()
    }

    /// Whether nothing is under way: no frame, no message that is kept, no request and no transition.
    pub fn quiet(&self) -> bool
        ensures { IsTrue result ↔ IsQuiet self.now }
    {
        if !has_no_frame(&self.net) {
            return false;
        }
        if !keeps_nothing(&self.net) {
            return false;
        }
        if !self.switch.quiet() {
            return false;
        }
        are_quiet(self.blades.as_slice())
    }

    /// The event, by the node or the link that it names.
    fn lead(&mut self, event: &Event, images: &[Image], log: &mut Log) -> Result<(), Stop>
        requires kept { IsKept self.old }
        requires fits { IsEventFor self.old.plan event.now }
        requires images { FitImages self.old.plan.images images.now }
        ensures leads { OnOk result (Notes (Leads images.now event.now self.old self.new) log.old.notes log.new.notes) }
        ensures leaves { Leaves result self.old self.new log.old.notes log.new.notes }
    {
        match *event {
            Event::Step { hart } => self.act(HartAct::Step, hart, images, log),
            Event::Drain { hart } => self.act(HartAct::Drain, hart, images, log),
            Event::Evict { blade, page } => self.evict(blade, page, log),
            Event::Deliver { link, side, k } => self.deliver(link, side, k, images, log),
            Event::Lose { link, side, k } => {
                self.lose(link, side, k);
                Ok(())
            }
            Event::Repeat { link, side, k } => {
                self.repeat(link, side, k)?;
                Ok(())
            }
            Event::Resend { link } => {
                self.resend(link)?;
                Ok(())
            }
            Event::Epoch => Ok(()),
            Event::Ask { .. } | Event::Settle => unreachable!(),
        }
    }
}

/// Whether all wires are empty.
fn has_no_frame(net: &Net) -> bool
    ensures { IsTrue result ↔ HasNoFrame net.now }
{
    match net.first_frame() {
        None => true,
        Some(_) => false,
    }
}

/// Whether no link keeps a message.
fn keeps_nothing(net: &Net) -> bool
    ensures { IsTrue result ↔ KeepsNothing net.now }
{
    match net.first_kept() {
        None => true,
        Some(_) => false,
    }
}

/// Whether no blade waits for a page.
fn are_quiet(blades: &[ComputeBlade]) -> bool
    ensures { IsTrue result ↔ All (λ blade. blade.requests ≡ []) blades.now }
{
    for blade in blades {
        if !blade.quiet() {
            return false;
        }
    }
    true
}
