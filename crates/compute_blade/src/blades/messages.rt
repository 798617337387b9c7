//! What the blade does when a message of the switch comes.

ghost use Rattle.std.specs.Prelude.{◌≡◌, ◌≤◌, not, filter, length, Some, Err, OnOk, OnErr, ◌↔◌, IsTrue, IsSomeAnd};
ghost use Rattle.mind_base.specs.Fit.{FitImages};
ghost use Rattle.mind_base.specs.declared.failures.Stop.TheVariants.{Spent};
ghost use Rattle.page_cache.specs.PageCache.{same_page};
ghost use Rattle.wire_msg.specs.declared.msgs.Msg.TheVariants.{Fill};
ghost use Rattle.compute_blade.specs.Blade.{Did, BeginsWith, StaysBlade, HasSpent, request_for as request_for_of};
ghost use Rattle.compute_blade.specs.Messages.{BringsNothing, FitsFill, MayComeToBlade, acknowledging, after_message, request_answered};
ghost use Rattle.compute_blade.specs.declared.kept.Waits.TheVariants.{Step};
ghost use Rattle.compute_blade.specs.Pages.{withdrawn, withdrawable_in, spared as spared_of};

use crate::blades::ComputeBlade;
use crate::kept::{Answer, Withdrawal};
use crate::requests::request_for;
use crate::{Asked, Waits};
use mind_base::{Image, Log, NoMemory, Page, Perm, Range, Stop};
use page_image::PageImage;
use wire_msg::Msg;

impl ComputeBlade {
    /// Whether the message may come to the blade as it is: one that answers a request answers one that is
    /// out, brings a page to be written where one was asked for, and denies no drain.
    pub fn may_receive(&self, msg: &Msg) -> bool
        ensures { IsTrue result ↔ MayComeToBlade self.now msg.now }
    {
        match msg {
            Msg::Fill { page, writable, .. } => {
                fits_fill(request_for(self.requests.as_slice(), *page), *writable)
            }
            Msg::Deny { page } => fits_deny(request_for(self.requests.as_slice(), *page)),
            Msg::Inv { .. } | Msg::Lower { .. } => true,
            _ => false,
        }
    }

    /// Takes a message of the switch. A `Fill` brings the page that a step or a drain waited for, and what
    /// waited goes on; a `Deny` ends the hart whose step waited by a fault of its access. A step goes on only
    /// where its instruction needs just what was asked for; else it waits no longer, and nothing else is done.
    /// `Inv` and `Lower` take pages of a range away, or the leave to write them, and are acknowledged. `Spent`
    /// comes where a store would be the 2^58th of the hart that waited.
    pub fn receive(
        &mut self,
        msg: Msg,
        images: &[Image],
        out: &mut Vec<Msg>,
        log: &mut Log,
    ) -> Result<(), Stop>
        requires may_come { MayComeToBlade self.old msg }
        requires images { FitImages self.old.plan.images images.now }
        ensures ok { OnOk result (Did (after_message images.now msg self.old) self.new out.old.items out.new.items log.old.notes log.new.notes) }
        ensures spent { result ≡ Err Spent → IsSomeAnd (request_answered msg self.old.requests) (λ asked. HasSpent asked.hart self.old × HasSpent asked.hart self.new) }
        ensures err { OnErr result (BeginsWith out.old.items out.new.items × BeginsWith log.old.notes log.new.notes) }
        ensures keeps { StaysBlade self.old self.new }
    {
        match msg {
            Msg::Fill {
                page,
                perm,
                writable,
                image,
            } => self.fill(page, perm, writable, image, images, out, log),
            other => self.obey(&other, images, out, log),
        }
    }

    /// Takes a message that brings no page.
    fn obey(
        &mut self,
        msg: &Msg,
        images: &[Image],
        out: &mut Vec<Msg>,
        log: &mut Log,
    ) -> Result<(), Stop>
        requires brings { BringsNothing msg.now }
        requires may_come { MayComeToBlade self.old msg.now }
        ensures ok { OnOk result (Did (after_message images.now msg.now self.old) self.new out.old.items out.new.items log.old.notes log.new.notes) }
        ensures spent { result ≡ Err Spent → IsSomeAnd (request_answered msg.now self.old.requests) (λ asked. HasSpent asked.hart self.old × HasSpent asked.hart self.new) }
        ensures err { OnErr result (BeginsWith out.old.items out.new.items × BeginsWith log.old.notes log.new.notes) }
        ensures keeps { StaysBlade self.old self.new }
    {
        match msg {
            Msg::Deny { page } => self.resume(Answer::Denied, *page, images, out, log)?,
            Msg::Inv {
                number,
                range,
                asked,
            } => self.withdraw_range(Withdrawal::Pages, *number, *range, *asked, out, log)?,
            Msg::Lower {
                number,
                range,
                asked,
            } => self.withdraw_range(Withdrawal::Writing, *number, *range, Some(*asked), out, log)?,
            Msg::Fill { .. }
            | Msg::Get { .. }
            | Msg::Back { .. }
            | Msg::Ack { .. }
            | Msg::Close { .. }
            | Msg::Closed { .. }
            | Msg::Reopen { .. }
            | Msg::Read { .. }
            | Msg::Image { .. }
            | Msg::Write { .. }
            | Msg::Zero { .. } => unreachable!(),
        }
        Ok(())
    }

    /// Takes a page that was asked for, and performs what waited for it.
    fn fill(
        &mut self,
        page: Page,
        perm: Perm,
        writable: bool,
        image: PageImage,
        images: &[Image],
        out: &mut Vec<Msg>,
        log: &mut Log,
    ) -> Result<(), Stop>
        ensures ok { OnOk result (Did (after_message images.now (Fill page perm writable image) self.old) self.new out.old.items out.new.items log.old.notes log.new.notes) }
        ensures spent { result ≡ Err Spent → IsSomeAnd (request_for_of page self.old.requests) (λ asked. HasSpent asked.hart self.old × HasSpent asked.hart self.new) }
        ensures err { OnErr result (BeginsWith out.old.items out.new.items × BeginsWith log.old.notes log.new.notes) }
        ensures keeps { StaysBlade self.old self.new }
    {
        self.take(page, perm, writable, image, out, log)?;
        self.resume(Answer::Filled, page, images, out, log)?;
        Ok(())
    }

    /// Gives up the pages of a range, or lets them be written no longer, the least recently used first, and
    /// says how many of them were not asked for.
    fn withdraw_range(
        &mut self,
        what: Withdrawal,
        number: u32,
        range: Range,
        asked: Option<Page>,
        out: &mut Vec<Msg>,
        log: &mut Log,
    ) -> Result<(), NoMemory>
        ensures ok { OnOk result (Did (acknowledging (withdrawn what) (withdrawable_in what range self.old) number asked self.old) self.new out.old.items out.new.items log.old.notes log.new.notes) }
        ensures err { OnErr result (BeginsWith out.old.items out.new.items × BeginsWith log.old.notes log.new.notes) }
        ensures keeps { StaysBlade self.old self.new }
    {
        let pages = self.withdrawable(what, range)?;
        let count = spared(asked, pages.as_slice());
        self.withdraw_each(what, pages.as_slice(), out, log)?;
        out.push(Msg::Ack { number, count })?;
        Ok(())
    }
}

fn fits_fill(asked: Option<Asked>, writable: bool) -> bool
    ensures { IsTrue result ↔ IsSomeAnd asked (FitsFill writable) }
{
    match asked {
        None => false,
        Some(asked) => !asked.write || writable,
    }
}

fn fits_deny(asked: Option<Asked>) -> bool
    ensures { IsTrue result ↔ IsSomeAnd asked (λ asked. asked.waits ≡ Step) }
{
    match asked {
        None => false,
        Some(asked) => asked.waits == Waits::Step,
    }
}

/// How many of the pages were not asked for; 0 where no page was.
fn spared(asked: Option<Page>, pages: &[Page]) -> u32
    requires { length pages.now ≤ 1024 }
    ensures { result ≡ spared_of asked pages.now }
{
    match asked {
        None => 0,
        Some(asked) => count_others(asked, pages),
    }
}

fn count_others(asked: Page, pages: &[Page]) -> u32
    requires { length pages.now ≤ 1024 }
    ensures { result ≡ length (filter (λ page. not (same_page asked page)) pages.now) }
{
    let mut count = 0;
    for page in pages {
        if asked != *page {
            count += 1;
        }
    }
    count
}
