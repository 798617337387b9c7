//! Pages that the blade gives up, may write no longer, or takes.

ghost use Rattle.std.specs.Prelude.{◌≡◌, ◌<◌, ◌≤◌, ◌+◌, [], ◌∷◌, ◌++◌, length, vec_len, vec_capacity, IfOk, OnOk, OnErr};
ghost use Rattle.compute_blade.specs.Blade.{Did, BeginsWith, IsBlade, StaysBlade};
ghost use Rattle.compute_blade.specs.Pages.{evicted, given_up, lowered, withdrawn, withdrawable_in, back_of, each_in, taken, sent_out, noted_out, run_of_block as span_of_range};

use crate::blades::ComputeBlade;
use crate::kept::Withdrawal;
use mind_base::{Log, NoMemory, Note, Page, Perm, Range, Span};
use page_cache::{Frame, Put};
use page_image::PageImage;
use wire_msg::Msg;

impl ComputeBlade {
    /// Gives a page up where it is held; if it is dirty, its image goes back to the switch.
    pub fn evict(&mut self, page: Page, out: &mut Vec<Msg>, log: &mut Log) -> Result<(), NoMemory>
        ensures ok { OnOk result (Did (evicted page self.old) self.new out.old.items out.new.items log.old.notes log.new.notes) }
        ensures keeps { StaysBlade self.old self.new }
        ensures err { OnErr result (BeginsWith out.old.items out.new.items × BeginsWith log.old.notes log.new.notes) }
    {
        self.give_up(page, out, log)?;
        Ok(())
    }

    fn give_up(&mut self, page: Page, out: &mut Vec<Msg>, log: &mut Log) -> Result<(), NoMemory>
        ensures ok { OnOk result (Did (given_up page self.old) self.new out.old.items out.new.items log.old.notes log.new.notes) }
        ensures keeps { StaysBlade self.old self.new }
        ensures err { OnErr result ((out.new.items ≡ out.old.items) × (log.new.notes ≡ log.old.notes)) }
    {
        let blade = self.number;
        let Some(frame) = self.cache.take(page) else {
            return Ok(());
        };
        out.reserve(1)?;
        log.add(Note::Give { blade, page })?;
        send_back(page, frame, out);
        Ok(())
    }

    /// Lets a page be written no longer where it is held; if it is dirty, its image goes back to the
    /// switch.
    fn lower(&mut self, page: Page, out: &mut Vec<Msg>, log: &mut Log) -> Result<(), NoMemory>
        ensures ok { OnOk result (Did (lowered page self.old) self.new out.old.items out.new.items log.old.notes log.new.notes) }
        ensures err { OnErr result ((out.new.items ≡ out.old.items) × (log.new.notes ≡ log.old.notes)) }
        ensures keeps { StaysBlade self.old self.new }
    {
        let blade = self.number;
        let Some(frame) = self.cache.find(page) else {
            return Ok(());
        };
        let copy = copied(frame)?;
        out.reserve(1)?;
        log.add(Note::Down { blade, page })?;
        self.cache.lower(page);
        send_back(page, copy, out);
        Ok(())
    }

    fn withdraw(
        &mut self,
        what: Withdrawal,
        page: Page,
        out: &mut Vec<Msg>,
        log: &mut Log,
    ) -> Result<(), NoMemory>
        ensures ok { OnOk result (Did (withdrawn what page self.old) self.new out.old.items out.new.items log.old.notes log.new.notes) }
        ensures err { OnErr result ((out.new.items ≡ out.old.items) × (log.new.notes ≡ log.old.notes)) }
        ensures keeps { StaysBlade self.old self.new }
    {
        match what {
            Withdrawal::Pages => self.give_up(page, out, log)?,
            Withdrawal::Writing => self.lower(page, out, log)?,
        }
        Ok(())
    }

    /// Gives up these pages, or lets them be written no longer, one after another.
    pub(crate) fn withdraw_each(
        &mut self,
        what: Withdrawal,
        pages: &[Page],
        out: &mut Vec<Msg>,
        log: &mut Log,
    ) -> Result<(), NoMemory>
        requires { IsBlade self.old }
        ensures ok { OnOk result (Did (each_in (withdrawn what) pages.now self.old) self.new out.old.items out.new.items log.old.notes log.new.notes) }
        ensures err { OnErr result (BeginsWith out.old.items out.new.items × BeginsWith log.old.notes log.new.notes) }
        ensures keeps { StaysBlade self.old self.new }
    {
        for page in pages {
            self.withdraw(what, *page, out, log)?;
        }
        Ok(())
    }

    /// The pages of a range that are held, or those that may be written, the least recently used first.
    pub(crate) fn withdrawable(&self, what: Withdrawal, range: Range) -> Result<Vec<Page>, NoMemory>
        ensures pages { IfOk result (λ pages. pages.items ≡ withdrawable_in what range self.now) }
        ensures count { IfOk result (λ pages. length pages.items ≤ self.now.cache.frames) }
        ensures shape { IsBlade self.now }
    {
        let alloc = *self.harts.allocator();
        let span = span_of(range);
        match what {
            Withdrawal::Pages => self.cache.pages_in(alloc, &span),
            Withdrawal::Writing => self.cache.writable_pages_in(alloc, &span),
        }
    }

    /// Takes a page, as the most recently used. A full cache of others gives up its least recently used
    /// page first.
    pub(crate) fn take(
        &mut self,
        page: Page,
        perm: Perm,
        writable: bool,
        image: PageImage,
        out: &mut Vec<Msg>,
        log: &mut Log,
    ) -> Result<(), NoMemory>
        ensures ok { OnOk result (Did (taken page perm writable image self.old) self.new out.old.items out.new.items log.old.notes log.new.notes) }
        ensures err { OnErr result ((out.new.items ≡ out.old.items) × (log.new.notes ≡ log.old.notes)) }
        ensures keeps { StaysBlade self.old self.new }
    {
        let blade = self.number;
        out.reserve(1)?;
        log.reserve(2)?;
        let frame = Frame {
            image,
            writable,
            dirty: false,
            perm,
        };
        let Ok(put) = self.cache.put(page, frame) else {
            return Err(NoMemory);
        };
        give_way(blade, put, out, log);
        let Ok(()) = log.add(Note::Take {
            blade,
            page,
            writable,
        }) else {
            unreachable!();
        };
        Ok(())
    }
}

/// An equal frame.
fn copied(frame: &Frame) -> Result<Frame, NoMemory>
    ensures { IfOk result (λ copy. copy ≡ frame.now) }
{
    let image = frame.image.copy()?;
    Ok(Frame {
        image,
        writable: frame.writable,
        dirty: frame.dirty,
        perm: frame.perm,
    })
}

/// Sends the image of a dirty frame back. There is room for the message.
fn send_back(page: Page, frame: Frame, out: &mut Vec<Msg>)
    requires { vec_len out.old < vec_capacity out.old }
    ensures { out.new.items ≡ out.old.items ++ back_of page frame }
{
    let Frame { image, dirty, .. } = frame;
    if dirty {
        let Ok(()) = out.push(Msg::Back { page, image }) else {
            unreachable!();
        };
    }
}

/// What a put displaced is given up. There is room for a message and a note.
fn give_way(blade: u8, put: Put, out: &mut Vec<Msg>, log: &mut Log)
    requires out { vec_len out.old < vec_capacity out.old }
    requires log { 0 < log.old.spare }
    ensures out { out.new.items ≡ out.old.items ++ sent_out put }
    ensures log { log.new.notes ≡ log.old.notes ++ noted_out blade put }
    ensures spare { log.old.spare ≤ log.new.spare + 1 }
{
    match put {
        Put::Fresh => {}
        Put::Replaced { .. } => {}
        Put::Pushed { page, old } => {
            let Ok(()) = log.add(Note::Give { blade, page }) else {
                unreachable!();
            };
            send_back(page, old, out);
        }
    }
}

/// A range as a run of pages.
fn span_of(range: Range) -> Span
    ensures { result ≡ span_of_range range }
{
    Span {
        domain: range.domain,
        base: range.base,
        pages: 1 << range.log,
    }
}
