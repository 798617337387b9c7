//! Steps and drains of the blade's harts.

ghost use Rattle.std.specs.Prelude.{◌≡◌, ◌<◌, ◌++◌, [], true, false, drop, slice_get, Err, OnOk, OnErr, IfSome, IsSome};
ghost use Rattle.hart_effect.specs.Deed.{drains_first as drains_first_of};
ghost use Rattle.mind_base.specs.Fit.{FitImages};
ghost use Rattle.mind_base.specs.declared.failures.Stop.TheVariants.{Spent};
ghost use Rattle.compute_blade.specs.Blade.{BeginsWith, Did, DidSome, IsBlade, StaysBlade, OnlyNotes, OnlySends, HasSpent, hart_of, with_hart};
ghost use Rattle.compute_blade.specs.Harts.{IsDoing, IsOwnMover, hart_changed};
ghost use Rattle.compute_blade.specs.Steps.{performed, asking, drained, draining_by, drain_of, stepping_by, step_at, after_step, blade_after_drain};

use crate::blades::{ComputeBlade, image_for};
use crate::frames::is_writable;
use crate::kept::{Doing, HartChange, Mover, Need};
use crate::needs::{need_in, serves};
use crate::requests::is_asked;
use crate::{Asked, Waits};
use hart_effect::{Found, find};
use mind_base::{End, Image, Log, NoMemory, Note, Pending, Place, Stop};
use wire_msg::Msg;

impl ComputeBlade {
    /// One step of the blade's hart `hart`: it performs the instruction at its pc, lets its oldest store
    /// drain first, or waits for a page, for which the switch is asked. Nothing is done where the hart
    /// has ended or its step waits. `Spent` comes where a store would be the hart's 2^58th, and leaves
    /// the blade as it was.
    pub fn step(
        &mut self,
        hart: u8,
        images: &[Image],
        out: &mut Vec<Msg>,
        log: &mut Log,
    ) -> Result<(), Stop>
        requires own { IsSome (hart_of self.old hart) }
        requires images { FitImages self.old.plan.images images.now }
        ensures ok { OnOk result (DidSome (after_step images.now hart self.old) self.new out.old.items out.new.items log.old.notes log.new.notes) }
        ensures spent { result ≡ Err Spent → HasSpent hart self.old × (self.new ≡ self.old) }
        ensures err { OnErr result (BeginsWith out.old.items out.new.items × BeginsWith log.old.notes log.new.notes) }
        ensures keeps { StaysBlade self.old self.new }
    {
        let Some(mover) = self.mover(hart) else {
            return Ok(());
        };
        let Some(image) = image_for(images, mover.plan.image) else {
            return Ok(());
        };
        self.step_of(mover, image, out, log)?;
        Ok(())
    }

    /// The oldest store of the blade's hart `hart`, if there is one, takes effect, or the switch is asked
    /// for its page. Nothing is done where the hart's drain waits. `Spent` comes where the store would be
    /// the hart's 2^58th, and leaves the blade as it was.
    pub fn drain(&mut self, hart: u8, out: &mut Vec<Msg>, log: &mut Log) -> Result<(), Stop>
        requires { IsSome (hart_of self.old hart) }
        ensures ok { OnOk result (DidSome (blade_after_drain hart self.old) self.new out.old.items out.new.items log.old.notes log.new.notes) }
        ensures spent { result ≡ Err Spent → HasSpent hart self.old × (self.new ≡ self.old) }
        ensures err { OnErr result (BeginsWith out.old.items out.new.items × BeginsWith log.old.notes log.new.notes) }
        ensures keeps { StaysBlade self.old self.new }
    {
        let Some(mover) = self.mover(hart) else {
            return Ok(());
        };
        self.drain_of(mover, out, log)?;
        Ok(())
    }

    fn step_of(
        &mut self,
        mover: Mover,
        image: &Image,
        out: &mut Vec<Msg>,
        log: &mut Log,
    ) -> Result<(), Stop>
        requires own { IsOwnMover self.old mover }
        ensures ok { OnOk result (IfSome (hart_of self.old mover.hart) (λ hart.
            Did (step_at hart.end mover.hart mover.plan image.now self.old hart) self.new out.old.items out.new.items log.old.notes log.new.notes)) }
        ensures spent { result ≡ Err Spent → HasSpent mover.hart self.old × (self.new ≡ self.old) }
        ensures err { OnErr result ((out.new.items ≡ out.old.items) × (log.new.notes ≡ log.old.notes)) }
        ensures keeps { StaysBlade self.old self.new }
    {
        let Some(hart) = self.hart(mover.hart) else {
            return Ok(());
        };
        let End::Running { pc } = hart.end() else {
            return Ok(());
        };
        if hart.is_stepping() {
            return Ok(());
        }
        let found = find(image, hart.regs(), pc);
        self.step_by(Doing { mover, found, pc }, out, log)?;
        Ok(())
    }

    fn step_by(&mut self, doing: Doing, out: &mut Vec<Msg>, log: &mut Log) -> Result<(), Stop>
        requires doing { IsDoing doing }
        requires own { IsSome (hart_of self.old doing.mover.hart) }
        ensures ok { OnOk result (IfSome (hart_of self.old doing.mover.hart) (λ hart.
            Did (stepping_by doing.mover.hart doing.mover.plan doing.found doing.pc self.old hart) self.new out.old.items out.new.items log.old.notes log.new.notes)) }
        ensures spent { result ≡ Err Spent → HasSpent doing.mover.hart self.old × (self.new ≡ self.old) }
        ensures err { OnErr result ((out.new.items ≡ out.old.items) × (log.new.notes ≡ log.old.notes)) }
        ensures keeps { StaysBlade self.old self.new }
    {
        let Doing { mover, found, .. } = doing;
        if self.drains_first(mover.hart, found) {
            self.drain_of(mover, out, log)?;
            return Ok(());
        }
        if let Some(need) = need_in(found, mover.plan.domain) {
            if !serves(found, &self.cache, need.page) {
                self.ask(mover.hart, Waits::Step, need, out)?;
                return Ok(());
            }
        }
        self.perform(doing, log)?;
        Ok(())
    }

    fn drain_of(&mut self, mover: Mover, out: &mut Vec<Msg>, log: &mut Log) -> Result<(), Stop>
        requires own { IsOwnMover self.old mover }
        ensures ok { OnOk result (IfSome (hart_of self.old mover.hart) (λ hart.
            Did (drain_of mover.hart mover.plan self.old hart) self.new out.old.items out.new.items log.old.notes log.new.notes)) }
        ensures spent { result ≡ Err Spent → HasSpent mover.hart self.old × (self.new ≡ self.old) }
        ensures err { OnErr result ((out.new.items ≡ out.old.items) × (log.new.notes ≡ log.old.notes)) }
        ensures keeps { StaysBlade self.old self.new }
    {
        if self.is_draining(mover.hart) {
            return Ok(());
        }
        self.drain_by(mover, out, log)?;
        Ok(())
    }

    /// The hart does what it found at a pc.
    pub(crate) fn perform(&mut self, doing: Doing, log: &mut Log) -> Result<(), Stop>
        requires doing { IsDoing doing }
        requires own { IsSome (hart_of self.old doing.mover.hart) }
        requires ready { IfSome (hart_of self.old doing.mover.hart) (λ hart. drains_first_of doing.found hart.queue.stores hart.queue.capacity ≡ false) }
        ensures ok { OnOk result (IfSome (hart_of self.old doing.mover.hart) (λ hart. OnlyNotes (performed doing.mover.hart doing.mover.plan doing.found doing.pc self.old hart) self.new log.old.notes log.new.notes)) }
        ensures spent { result ≡ Err Spent → HasSpent doing.mover.hart self.old × (self.new ≡ self.old) }
        ensures err { OnErr result (log.new.notes ≡ log.old.notes) }
        ensures keeps { StaysBlade self.old self.new }
    {
        let Some(hart) = &mut self.harts[usize::from(doing.mover.hart)] else {
            return Ok(());
        };
        hart.perform(doing, &mut self.cache)?;
        log.add(Note::Exec {
            hart: doing.mover.hart,
        })?;
        Ok(())
    }

    /// The oldest store of the hart leaves its queue and takes effect.
    fn drain_oldest(&mut self, mover: Mover, log: &mut Log) -> Result<(), Stop>
        requires own { IsOwnMover self.old mover }
        ensures ok { OnOk result (IfSome (hart_of self.old mover.hart) (λ hart. IfSome (slice_get hart.queue.stores 0) (λ oldest.
            OnlyNotes (drained mover.hart mover.plan oldest (drop 1 hart.queue.stores) self.old hart) self.new log.old.notes log.new.notes))) }
        ensures spent { result ≡ Err Spent → HasSpent mover.hart self.old × (self.new ≡ self.old) }
        ensures err { OnErr result (log.new.notes ≡ log.old.notes) }
        ensures keeps { StaysBlade self.old self.new }
    {
        let Some(hart) = &mut self.harts[usize::from(mover.hart)] else {
            return Ok(());
        };
        hart.drain(mover, &mut self.cache)?;
        log.add(Note::Drain { hart: mover.hart })?;
        Ok(())
    }

    /// The oldest store that hart `h` has in its queue.
    fn oldest(&self, h: u8) -> Option<Pending>
        requires { IsSome (hart_of self.now h) }
        ensures oldest { IfSome (hart_of self.now h) (λ hart. result ≡ slice_get hart.queue.stores 0) }
        ensures shape { IsBlade self.now }
    {
        self.hart(h)?.oldest()
    }

    fn is_draining(&self, h: u8) -> bool
        requires { IsSome (hart_of self.now h) }
        ensures draining { IfSome (hart_of self.now h) (λ hart. result ≡ hart.draining) }
        ensures shape { IsBlade self.now }
    {
        match self.hart(h) {
            None => false,
            Some(hart) => hart.is_draining(),
        }
    }

    /// Whether the oldest store of hart `h` must drain before the hart does what it found.
    pub(crate) fn drains_first(&self, h: u8, found: Found) -> bool
        requires { IsSome (hart_of self.now h) }
        ensures first { IfSome (hart_of self.now h) (λ hart. result ≡ drains_first_of found hart.queue.stores hart.queue.capacity) }
        ensures shape { IsBlade self.now }
    {
        match self.hart(h) {
            None => false,
            Some(hart) => hart.drains_first(found),
        }
    }

    /// The oldest store of the hart takes effect where its page may be written; else the page is asked
    /// for.
    pub(crate) fn drain_by(
        &mut self,
        mover: Mover,
        out: &mut Vec<Msg>,
        log: &mut Log,
    ) -> Result<(), Stop>
        requires own { IsOwnMover self.old mover }
        ensures ok { OnOk result (IfSome (hart_of self.old mover.hart) (λ hart.
            Did (draining_by mover.hart mover.plan hart.queue.stores self.old hart) self.new out.old.items out.new.items log.old.notes log.new.notes)) }
        ensures spent { result ≡ Err Spent → HasSpent mover.hart self.old × (self.new ≡ self.old) }
        ensures err { OnErr result ((out.new.items ≡ out.old.items) × (log.new.notes ≡ log.old.notes)) }
        ensures keeps { StaysBlade self.old self.new }
    {
        let Some(oldest) = self.oldest(mover.hart) else {
            return Ok(());
        };
        let page = Place::of(mover.plan.domain, oldest.address).page();
        if is_writable(&self.cache, page) {
            self.drain_oldest(mover, log)?;
        } else {
            self.ask(mover.hart, Waits::Drain, Need { page, write: true }, out)?;
        }
        Ok(())
    }

    /// Asks the switch for a page for which hart `h` waits, unless a request for it is out.
    fn ask(&mut self, h: u8, waits: Waits, need: Need, out: &mut Vec<Msg>) -> Result<(), NoMemory>
        requires own { IsSome (hart_of self.old h) }
        ensures ok { OnOk result (IfSome (hart_of self.old h) (λ hart. OnlySends (asking h waits need self.old hart) self.new out.old.items out.new.items)) }
        ensures err { OnErr result (out.new.items ≡ out.old.items) }
        ensures keeps { StaysBlade self.old self.new }
    {
        let Need { page, write } = need;
        if is_asked(self.requests.as_slice(), page) {
            return Ok(());
        }
        let hart = h;
        self.requests.push(Asked {
            page,
            write,
            hart,
            waits,
        })?;
        self.change_hart(h, HartChange::Waits { waits });
        out.push(Msg::Get { page, write })?;
        Ok(())
    }

    /// Something befalls hart `h`.
    pub(crate) fn change_hart(&mut self, h: u8, change: HartChange)
        requires { IsSome (hart_of self.old h) }
        ensures done { IfSome (hart_of self.old h) (λ hart. self.new ≡ with_hart h (hart_changed change hart) self.old) }
        ensures keeps { StaysBlade self.old self.new }
    {
        let Some(hart) = &mut self.harts[usize::from(h)] else {
            return;
        };
        hart.change_by(change);
    }
}
