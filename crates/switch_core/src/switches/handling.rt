//! What a message itself does.

ghost use Rattle.std.specs.Prelude.{◌≡◌, ◌<◌, ◌++◌, [], Some, true, false, All, Any, length, OnOk, OnErr};
ghost use Rattle.invalidate_multicast.specs.Transition.{acknowledged};
ghost use Rattle.request_list.specs.Requests.{is_of};
ghost use Rattle.switch_core.specs.Handling.{all_ended, request_noted, filled, from_blade, from_memory, handled_from, MayComeFrom, MayComeOn, MayComeUp, went_back};
ghost use Rattle.switch_core.specs.Invariant.{IsSwitch};
ghost use Rattle.switch_core.specs.Sending.{Begins, Comes, Remains, start_at};

use super::SwitchCore;
use crate::endings::end_all;
use crate::messages::{Out, tell, write_to};
use invalidate_multicast::ack;
use mind_base::{LinkKind, LinkName, Log, NoMemory, Page};
use page_image::PageImage;
use wire_msg::Msg;

impl SwitchCore {
    /// A blade asks for a page.
    fn ask(&mut self, blade: u8, page: &Page, write: bool) -> Result<(), NoMemory>
        requires blade { blade < length self.old.plan.frames }
        requires new { All (λ r. is_of blade page.now r ≡ false) self.old.requests }
        ensures switch { OnOk result (self.new ≡ (request_noted blade page.now write self.old).switch) }
        ensures unchanged { OnErr result (self.new ≡ self.old) }
    {
        self.requests.arrive(blade, *page, write)?;
        Ok(())
    }

    /// The page that a request fetched has come: the request ends, and its blade gets the page.
    fn fill(
        &mut self,
        blade: u8,
        page: &Page,
        image: PageImage,
        out: &mut Out,
    ) -> Result<(), NoMemory>
        requires fetched { Any (λ r. (is_of blade page.now r ≡ true) × (r.fetching ≡ true)) self.old.requests }
        ensures comes { OnOk result (Comes (start_at self.old out.old.items []) (filled (Some blade) page.now image self.old) self.new out.new.items []) }
        ensures remains { Remains self.old self.new }
        ensures last { self.new.last ≡ self.old.last }
        ensures out { Begins out.old.items out.new.items }
    {
        let Some(r) = self.requests.done(blade, *page) else {
            unreachable!();
        };
        let msg = Msg::Fill {
            page: r.page,
            perm: self.protect.perm(r.page),
            writable: r.write,
            image,
        };
        tell(out, LinkKind::Down, r.blade, msg)
    }

    /// A page that a blade wrote comes back, and goes to where it lies.
    fn take_back(&self, page: &Page, image: PageImage, out: &mut Out) -> Result<(), NoMemory>
        ensures sent { OnOk result (out.new.items ≡ out.old.items ++ (went_back page.now image self.now).sent) }
        ensures switch { OnOk result (IsSwitch self.now) }
        ensures out { Begins out.old.items out.new.items }
    {
        let place = self.table.place(*page);
        write_to(out, place, image)
    }

    /// A blade has done what a transition told it, with so many pages given up or lowered.
    fn answer(&mut self, number: u32, blade: u8, count: u32, log: &mut Log) -> Result<(), NoMemory>
        ensures switch { OnOk result (self.new ≡ (all_ended (acknowledged number blade count self.old.directory.entries) self.old).switch) }
        ensures noted { OnOk result (log.new.notes ≡ log.old.notes ++ (all_ended (acknowledged number blade count self.old.directory.entries) self.old).noted) }
        ensures remains { Remains self.old self.new }
        ensures last { self.new.last ≡ self.old.last }
        ensures log { Begins log.old.notes log.new.notes }
    {
        ack(&mut self.directory, number, blade, count);
        end_all(&mut self.directory, log)
    }

    /// A message from a compute blade.
    fn handle_up(
        &mut self,
        blade: u8,
        msg: Msg,
        out: &mut Out,
        log: &mut Log,
    ) -> Result<(), NoMemory>
        requires blade { blade < length self.old.plan.frames }
        requires may { MayComeUp self.old blade msg }
        ensures comes { OnOk result (Comes (start_at self.old out.old.items log.old.notes) (from_blade blade msg self.old) self.new out.new.items log.new.notes) }
        ensures remains { Remains self.old self.new }
        ensures last { self.new.last ≡ self.old.last }
        ensures out { Begins out.old.items out.new.items }
        ensures log { Begins log.old.notes log.new.notes }
    {
        match msg {
            Msg::Get { page, write } => self.ask(blade, &page, write),
            Msg::Back { page, image } => self.take_back(&page, image, out),
            Msg::Ack { number, count } => self.answer(number, blade, count, log),
            _ => unreachable!(),
        }
    }

    /// A message from a memory blade.
    fn handle_image(&mut self, msg: Msg, out: &mut Out) -> Result<(), NoMemory>
        requires { MayComeFrom self.old msg }
        ensures comes { OnOk result (Comes (start_at self.old out.old.items []) (from_memory msg self.old) self.new out.new.items []) }
        ensures remains { Remains self.old self.new }
        ensures last { self.new.last ≡ self.old.last }
        ensures out { Begins out.old.items out.new.items }
    {
        let Msg::Image { blade, page, image } = msg else {
            unreachable!();
        };
        let Some(blade) = blade else {
            unreachable!();
        };
        self.fill(blade, &page, image, out)
    }

    /// A message that may come, before the switch serves.
    pub(super) fn handle(
        &mut self,
        from: &LinkName,
        msg: Msg,
        out: &mut Out,
        log: &mut Log,
    ) -> Result<(), NoMemory>
        requires { MayComeOn self.old from.now.kind from.now.number msg }
        ensures comes { OnOk result (Comes (start_at self.old out.old.items log.old.notes) (handled_from from.now.kind from.now.number msg self.old) self.new out.new.items log.new.notes) }
        ensures remains { Remains self.old self.new }
        ensures last { self.new.last ≡ self.old.last }
        ensures out { Begins out.old.items out.new.items }
        ensures log { Begins log.old.notes log.new.notes }
    {
        match from.kind {
            LinkKind::Up => self.handle_up(from.number, msg, out, log),
            LinkKind::From => self.handle_image(msg, out),
            LinkKind::Down | LinkKind::To => unreachable!(),
        }
    }
}
