//! Answers to the blade's requests: what waited is performed.

ghost use Rattle.std.specs.Prelude.{◌≡◌, ◌<◌, is_some, Err, OnOk, OnErr, IfSome, IfNone, IsSome, IsSomeAnd};
ghost use Rattle.mind_base.specs.declared.failures.Stop.TheVariants.{Spent};
ghost use Rattle.compute_blade.specs.Blade.{Did, IsBlade, StaysBlade, OnlyNotes, HasSpent, hart_of, requests_without, with_hart, request_for as request_for_of};
ghost use Rattle.compute_blade.specs.Denials.{refused_by, denial_in as denial_in_found};
ghost use Rattle.compute_blade.specs.Harts.{IsDoing, IsOwnMover};
ghost use Rattle.compute_blade.specs.Messages.{awake, need_asked, resumed_with, resumed_at, resumed_by, resumed_for};

use crate::blades::{ComputeBlade, image_for};
use crate::denials::denial_in;
use crate::kept::{Answer, Doing, HartChange, Mover, Need};
use crate::needs::{need_in, needs_just};
use crate::requests::{answer as answer_request, request_for};
use crate::{Asked, Waits};
use hart_effect::{Found, find};
use mind_base::{End, Image, Log, NoMemory, Note, Page, Stop};
use wire_msg::Msg;

impl ComputeBlade {
    /// The request for the page ends, if one is out, and what waited for it is performed.
    pub(crate) fn resume(
        &mut self,
        answer: Answer,
        page: Page,
        images: &[Image],
        out: &mut Vec<Msg>,
        log: &mut Log,
    ) -> Result<(), Stop>
        ensures ok { OnOk result (Did (resumed_for answer images.now (request_for_of page self.old.requests) self.old) self.new out.old.items out.new.items log.old.notes log.new.notes) }
        ensures spent { result ≡ Err Spent → IsSomeAnd (request_for_of page self.old.requests) (λ asked. HasSpent asked.hart self.old × HasSpent asked.hart self.new) }
        ensures err { OnErr result ((out.new.items ≡ out.old.items) × (log.new.notes ≡ log.old.notes)) }
        ensures keeps { StaysBlade self.old self.new }
    {
        let Some(asked) = request_for(self.requests.as_slice(), page) else {
            return Ok(());
        };
        let Some(mover) = self.mover(asked.hart) else {
            return Ok(());
        };
        if !self.wake(&asked) {
            return Ok(());
        }
        self.resume_by(answer, &asked, mover, images, out, log)?;
        Ok(())
    }

    /// The request ends, and what waited for it waits no longer. False, and nothing changes, exactly
    /// where the hart is not the blade's.
    fn wake(&mut self, asked: &Asked) -> bool
        ensures own { result ≡ is_some (hart_of self.old asked.now.hart) }
        ensures awake { IfSome (hart_of self.old asked.now.hart) (λ hart.
            self.new ≡ with_hart asked.now.hart (awake asked.now.waits hart) (record self.old { requests = requests_without asked.now.page self.old.requests })) }
        ensures none { IfNone (hart_of self.old asked.now.hart) (self.new ≡ self.old) }
        ensures keeps { StaysBlade self.old self.new }
    {
        if self.hart(asked.hart).is_none() {
            return false;
        }
        answer_request(&mut self.requests, asked.page);
        let waits = asked.waits;
        self.change_hart(asked.hart, HartChange::Wakes { waits });
        true
    }

    fn resume_by(
        &mut self,
        answer: Answer,
        asked: &Asked,
        mover: Mover,
        images: &[Image],
        out: &mut Vec<Msg>,
        log: &mut Log,
    ) -> Result<(), Stop>
        requires own { IsOwnMover self.old mover }
        ensures ok { OnOk result (IfSome (hart_of self.old mover.hart) (λ hart.
            Did (resumed_by asked.now.waits answer (need_asked asked.now) images.now mover.hart mover.plan self.old hart) self.new out.old.items out.new.items log.old.notes log.new.notes)) }
        ensures spent { result ≡ Err Spent → HasSpent mover.hart self.old × (self.new ≡ self.old) }
        ensures err { OnErr result ((out.new.items ≡ out.old.items) × (log.new.notes ≡ log.old.notes)) }
        ensures keeps { StaysBlade self.old self.new }
    {
        match asked.waits {
            Waits::Step => self.resume_step(answer, need_for(asked), mover, images, log)?,
            Waits::Drain => self.drain_by(mover, out, log)?,
        }
        Ok(())
    }

    fn resume_step(
        &mut self,
        answer: Answer,
        need: Need,
        mover: Mover,
        images: &[Image],
        log: &mut Log,
    ) -> Result<(), Stop>
        requires own { IsOwnMover self.old mover }
        ensures ok { OnOk result (IfSome (hart_of self.old mover.hart) (λ hart.
            OnlyNotes (resumed_at hart.end answer need images.now mover.hart mover.plan self.old hart) self.new log.old.notes log.new.notes)) }
        ensures spent { result ≡ Err Spent → HasSpent mover.hart self.old × (self.new ≡ self.old) }
        ensures err { OnErr result (log.new.notes ≡ log.old.notes) }
        ensures keeps { StaysBlade self.old self.new }
    {
        let Some(hart) = self.hart(mover.hart) else {
            return Ok(());
        };
        let End::Running { pc } = hart.end() else {
            return Ok(());
        };
        let Some(image) = image_for(images, mover.plan.image) else {
            return Ok(());
        };
        let found = find(image, hart.regs(), pc);
        self.resume_with(answer, need, Doing { mover, found, pc }, log)?;
        Ok(())
    }

    fn resume_with(
        &mut self,
        answer: Answer,
        need: Need,
        doing: Doing,
        log: &mut Log,
    ) -> Result<(), Stop>
        requires doing { IsDoing doing }
        requires own { IsSome (hart_of self.old doing.mover.hart) }
        ensures ok { OnOk result (IfSome (hart_of self.old doing.mover.hart) (λ hart.
            OnlyNotes (resumed_with answer need doing.mover.hart doing.mover.plan doing.found doing.pc self.old hart) self.new log.old.notes log.new.notes)) }
        ensures spent { result ≡ Err Spent → HasSpent doing.mover.hart self.old × (self.new ≡ self.old) }
        ensures err { OnErr result (log.new.notes ≡ log.old.notes) }
        ensures keeps { StaysBlade self.old self.new }
    {
        let Doing { mover, found, pc } = doing;
        if self.drains_first(mover.hart, found) {
            return Ok(());
        }
        if !needs_just(need, need_in(found, mover.plan.domain)) {
            return Ok(());
        }
        match answer {
            Answer::Filled => self.perform(doing, log)?,
            Answer::Denied => self.refuse(mover.hart, found, pc, log)?,
        }
        Ok(())
    }

    /// The access that hart `h` waited to make is denied, and ends the hart by a fault at a pc.
    fn refuse(&mut self, h: u8, found: Found, pc: u32, log: &mut Log) -> Result<(), NoMemory>
        requires shape { IsBlade self.old }
        requires own { IsSome (hart_of self.old h) }
        ensures ok { OnOk result (IfSome (hart_of self.old h) (λ hart.
            OnlyNotes (refused_by (denial_in_found found) h pc self.old hart) self.new log.old.notes log.new.notes)) }
        ensures err { OnErr result (log.new.notes ≡ log.old.notes) }
        ensures keeps { StaysBlade self.old self.new }
    {
        let Some(denial) = denial_in(found) else {
            return Ok(());
        };
        self.change_hart(h, HartChange::Faults { denial, pc });
        log.add(Note::Exec { hart: h })?;
        Ok(())
    }
}

/// What a request asks for.
fn need_for(asked: &Asked) -> Need
    ensures { result ≡ need_asked asked.now }
{
    Need {
        page: asked.page,
        write: asked.write,
    }
}
