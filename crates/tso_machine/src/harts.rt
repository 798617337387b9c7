//! A thread of the machine: its core, its buffer and its reservation.

ghost use Rattle.std.specs.Prelude.{◌≡◌, ◌<◌, Some, IfOk, OnErr, option_map};
ghost use Rattle.hart_effect.specs.Core.{core_continued};
ghost use Rattle.hart_effect.specs.Deed.{holds_stores, AsksWellFormed, carried_out, executed, drain_deed, drains_first};
ghost use Rattle.hart_effect.specs.Thread.{first_thread, with_core};
ghost use Rattle.hart_effect.specs.Work.{deed_of, deed_with};
ghost use Rattle.tso_machine.specs.Commands.{buffers_in, thread_outside};
ghost use Rattle.tso_machine.specs.Done.{ThreadDoes};
ghost use Rattle.tso_machine.specs.Machine.{around_at};
ghost use Rattle.tso_machine.specs.Scheduled.{running_label, label_at};
ghost use Rattle.tso_machine.specs.Step.{thread_off};

use crate::Label;
use crate::buffers::Buffer;
use crate::deeds::{Done, take_effect};
use crate::surroundings::{FlatSurroundings, is_on};
use flat_memory::FlatMemory;
use hart_effect::{AccessEffect, Continued, Core, Found, Here, Work, drains_first, find};
use mind_base::{End, Granule, Image, NoMemory, Span};
use protect_table::Protect;
use std::alloc::Global;
use std::marker::Model;

/// A thread of the machine: its core, its buffer of stores, and the granule that it has reserved.
#[derive(Drop)]
pub struct Hart {
    core: Core,
    buffer: Buffer,
    reserved: Option<Granule>,
}

impl Model for Hart {
    ghost use Rattle.hart_effect.specs.Thread.{Thread, thread_with};

    ghost Value = { Thread };

    ghost view = { λ h. thread_with h.core h.buffer h.reserved };
}

impl Hart {
    /// A thread that runs at `pc`. Takes no memory.
    pub fn new(alloc: Global, pc: u32) -> Hart
        ensures { result ≡ first_thread pc }
    {
        Hart {
            core: Core::new(alloc, pc),
            buffer: Buffer::new(alloc),
            reserved: None,
        }
    }

    /// Where the thread stands.
    pub fn end(&self) -> End
        ensures { result ≡ self.now.end }
    {
        self.core.end()
    }

    /// The bytes that the thread put out.
    pub fn output(&self) -> &[u8]
        ensures { result.now ≡ self.now.output }
    {
        self.core.output()
    }

    /// Whether the thread buffers a store.
    pub fn holds_stores(&self) -> bool
        ensures { result ≡ holds_stores self.now.buffer }
    {
        self.buffer.holds_stores()
    }

    /// The label of a step of the thread, as number `hart` with a queue of so many places: its drain
    /// where that must come first, else its execution; None where it has ended.
    pub fn step_label(&self, image: &Image, queue: u32, hart: u8) -> Option<Label>
        ensures { result ≡ label_at self.now.end image.now self.now queue hart }
    {
        match self.core.end() {
            End::Running { pc } => {
                Some(self.running_label(find(image, self.core.regs(), pc), queue, hart))
            }
            End::Exit { .. } => None,
            End::Fault { .. } => None,
        }
    }

    fn running_label(&self, found: Found, queue: u32, hart: u8) -> Label
        ensures { result ≡ running_label (drains_first found self.now.buffer queue) hart }
    {
        if drains_first(found, self.buffer.len(), queue as usize) {
            Label::Drain { hart }
        } else {
            Label::Exec { hart }
        }
    }

    /// Executes the word at the pc, as thread `hart` of a domain. Nothing changes where the thread has
    /// ended or must first empty its buffer.
    pub fn execute(
        &mut self,
        image: &Image,
        hart: u8,
        domain: u8,
        memory: &mut FlatMemory,
        perms: &Protect,
    ) -> Result<Done, NoMemory>
        requires { domain < 16 }
        ensures ok { IfOk result (λ done. ThreadDoes done domain self.old memory.old self.new memory.new
            (executed image.now (around_at hart domain memory.old perms.now) self.old)) }
        ensures err { OnErr result ((self.new ≡ self.old) × (memory.new ≡ memory.old)) }
    {
        match self.core.end() {
            End::Running { pc } => {
                let here = Here { hart, domain, pc };
                let found = find(image, self.core.regs(), pc);
                let done = self.carry_out(found, here, memory, perms)?;
                Ok(done)
            }
            End::Exit { .. } => Ok(Done::Nothing),
            End::Fault { .. } => Ok(Done::Nothing),
        }
    }

    fn carry_out(
        &mut self,
        found: Found,
        here: Here,
        memory: &mut FlatMemory,
        perms: &Protect,
    ) -> Result<Done, NoMemory>
        requires domain { here.domain < 16 }
        requires well_formed { AsksWellFormed found }
        ensures ok { IfOk result (λ done. ThreadDoes done here.domain self.old memory.old self.new memory.new
            (carried_out found (around_at here.hart here.domain memory.old perms.now) here.pc self.old)) }
        ensures err { OnErr result ((self.new ≡ self.old) × (memory.new ≡ memory.old)) }
    {
        match self.work(found, here, memory, perms) {
            None => Ok(Done::Nothing),
            Some(work) => {
                let done = self.perform(work, here.domain, memory)?;
                Ok(done)
            }
        }
    }

    /// What the thread is to do with what it found; None where it must wait for its buffer.
    fn work(&self, found: Found, here: Here, memory: &FlatMemory, perms: &Protect) -> Option<Work>
        requires domain { here.domain < 16 }
        requires well_formed { AsksWellFormed found }
        ensures { option_map (λ work. deed_of work self.now) result
            ≡ carried_out found (around_at here.hart here.domain memory.now perms.now) here.pc self.now }
    {
        let around = FlatSurroundings {
            memory,
            perms,
            buffer: &self.buffer,
            reserved: self.reserved,
        };
        Work::of(found, here, &self.core, &around)
    }

    fn perform(&mut self, work: Work, domain: u8, memory: &mut FlatMemory) -> Result<Done, NoMemory>
        requires { domain < 16 }
        ensures ok { IfOk result (λ done. ThreadDoes done domain self.old memory.old self.new memory.new (Some (deed_of work self.old))) }
        ensures err { OnErr result ((self.new ≡ self.old) × (memory.new ≡ memory.old)) }
    {
        match work {
            Work::Alone { change } => {
                self.core.apply(change)?;
                Ok(Done::Changed)
            }
            Work::Accesses { effect, next } => {
                let done = self.access(effect, next, domain, memory)?;
                Ok(done)
            }
        }
    }

    /// An access has its effect, and the core goes on.
    fn access(
        &mut self,
        effect: AccessEffect,
        next: Continued,
        domain: u8,
        memory: &mut FlatMemory,
    ) -> Result<Done, NoMemory>
        requires { domain < 16 }
        ensures ok { IfOk result (λ done. ThreadDoes done domain self.old memory.old self.new memory.new
            (Some (deed_with effect (with_core (core_continued next)) self.old))) }
        ensures err { OnErr result ((self.new ≡ self.old) × (memory.new ≡ memory.old)) }
    {
        match effect {
            AccessEffect::Buffers { store } => {
                self.buffer.push(store)?;
                self.core.go_on(next);
                Ok(Done::Changed)
            }
            AccessEffect::Reserves { granule } => {
                self.reserved = Some(granule);
                self.core.go_on(next);
                Ok(Done::Changed)
            }
            AccessEffect::GivesUp => {
                self.reserved = None;
                self.core.go_on(next);
                Ok(Done::Changed)
            }
            AccessEffect::Stores { store } => {
                take_effect(store, domain, memory)?;
                self.core.go_on(next);
                Ok(Done::Stored { store })
            }
        }
    }

    /// Drains the oldest store of the buffer, if there is one, to the memory of a domain.
    pub fn drain(&mut self, domain: u8, memory: &mut FlatMemory) -> Result<Done, NoMemory>
        requires { domain < 16 }
        ensures ok { IfOk result (λ done. ThreadDoes done domain self.old memory.old self.new memory.new (drain_deed self.old)) }
        ensures err { OnErr result ((self.new ≡ self.old) × (memory.new ≡ memory.old)) }
    {
        let Some(store) = self.buffer.front() else {
            return Ok(Done::Nothing);
        };
        take_effect(store, domain, memory)?;
        self.buffer.pop();
        Ok(Done::Stored { store })
    }

    /// Ends the thread's reservation, if it is on this granule.
    pub fn end_reservation(&mut self, granule: Granule)
        ensures { self.new ≡ thread_off granule self.old }
    {
        if is_on(self.reserved, granule) {
            self.reserved = None;
        }
    }

    /// Whether the thread, of this domain, buffers a store in a page of the span.
    pub fn buffers_in(&self, span: &Span, domain: u8) -> bool
        requires { domain < 16 }
        ensures { result ≡ buffers_in span.now domain self.now }
    {
        self.buffer.holds_store_in(span, domain)
    }

    /// Ends the thread's reservation, if it is inside the span.
    pub fn end_reservation_in(&mut self, span: &Span)
        ensures { self.new ≡ thread_outside span.now self.old }
    {
        if let Some(reserved) = self.reserved {
            if span.has(reserved.page()) {
                self.reserved = None;
            }
        }
    }
}
