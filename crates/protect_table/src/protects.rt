//! The permissions of all pages of all domains, within so many slots.

ghost use Rattle.std.specs.Prelude.{◌≡◌, ◌≢◌, ◌≤◌, ◌<◌, ◌↔◌, IfOk, OnOk, OnErr, slice_index_or, true};
ghost use Rattle.mind_base.specs.Page.{PageView};
ghost use Rattle.mind_base.specs.Permission.{permission_of};
ghost use Rattle.mind_base.specs.declared.commands.Perm.TheVariants.{No};
ghost use Rattle.mind_base.specs.Cover.{cover_of};
ghost use Rattle.protect_table.specs.Block.{is_sought, whole, block_view, IsHalved};
ghost use Rattle.protect_table.specs.Protect.{permission_at, changed, span_set, FirstPage};

use crate::blocks::{Block, Sought};
use mind_base::{MapPlan, NoMemory, Page, Perm, Span};
use std::alloc::Global;
use std::marker::Model;

/// The logarithm of the number of pages of a domain.
const DOMAIN: u32 = 20;

/// Why a permission was not set: it would take more blocks than the table has slots, or there was no
/// memory.
#[derive(Clone, Copy, Debug, PartialEq, Eq)]
pub enum SetRefusal {
    Slots,
    NoMemory,
}

/// What each of 16 domains may do with each of its 2^20 pages. The table's slots are how many aligned
/// blocks of one permission other than none it may take to say so.
#[derive(Debug, Drop)]
pub struct Protect {
    slots: u32,
    cover: u32,
    domains: Vec<Block>,
    alloc: Global,
}

impl Model for Protect {
    ghost use Rattle.std.specs.Prelude.{map};
    ghost use Rattle.protect_table.specs.Block.{block_view};
    ghost use Rattle.protect_table.specs.Protect.{ProtectView, protect_code, IsProtect};

    ghost Value = { ProtectView };

    ghost coded = { protect_code };

    ghost view = { λ s. record { slots = s.slots; domains = map block_view s.domains.items } };

    ghost invariant = { λ s. IsProtect s.slots s.cover (map block_view s.domains.items) };
}

impl Protect {
    /// A table in which no page has a permission.
    pub fn new(alloc: Global, slots: u32) -> Result<Protect, NoMemory>
        ensures slots { IfOk result (λ table. table.slots ≡ slots) }
        ensures unmapped { IfOk result (λ table. (page : PageView) → permission_at table page ≡ Perm.No) }
    {
        let mut domains = Vec::new(alloc);
        for _ in 0..16u32 {
            domains.push(Block::Whole(Perm::No))?;
        }
        Ok(Protect {
            slots,
            cover: 0,
            domains,
            alloc,
        })
    }

    /// A table with the permissions of these maps. Of two maps that share a page the later one counts.
    pub fn of(alloc: Global, slots: u32, maps: &[MapPlan]) -> Result<Protect, NoMemory>
        requires { cover_of (permission_of maps.now) ≤ slots }
        ensures slots { IfOk result (λ table. table.slots ≡ slots) }
        ensures maps { IfOk result (λ table. permission_at table ≡ permission_of maps.now) }
    {
        let mut table = Protect::new(alloc, u32::MAX)?;
        for entry in maps {
            table.put(&entry.span, entry.perm)?;
        }
        table.slots = slots;
        Ok(table)
    }

    /// How many blocks the table may take.
    pub fn slots(&self) -> u32
        ensures { result ≡ self.now.slots }
    {
        self.slots
    }

    /// The permission of a page.
    pub fn perm(&self, page: Page) -> Perm
        ensures { result ≡ permission_at self.now page }
    {
        self.domain(page.domain).permission(DOMAIN, page.number)
    }

    /// How many blocks the table takes.
    pub fn cover(&self) -> u32
        ensures cover { result ≡ cover_of (permission_at self.now) }
        ensures within { result ≤ self.now.slots }
    {
        self.cover
    }

    /// How many blocks it would take if the run of pages were set to the permission.
    pub fn cover_with(&self, span: &Span, perm: Perm) -> u32
        ensures { result ≡ cover_of (changed (permission_at self.now) span.now perm) }
    {
        let domain = &self.domains[span.domain as usize];
        let before = domain.tally(DOMAIN);
        let after = domain.tally_with(DOMAIN, span.base, span.base + span.pages, perm);
        self.cover - before.blocks + after.blocks
    }

    /// Sets the run of pages to the permission. A refused call leaves the table as it was.
    pub fn set(&mut self, span: &Span, perm: Perm) -> Result<(), SetRefusal>
        ensures ok { OnOk result (permission_at self.new ≡ changed (permission_at self.old) span.now perm) }
        ensures exact { OnOk result (self.new ≡ span_set self.old span.now perm) }
        ensures slots { self.new.slots ≡ self.old.slots }
        ensures full { (result ≡ Err SetRefusal.Slots)
            ↔ (self.old.slots < cover_of (changed (permission_at self.old) span.now perm)) }
        ensures refused { OnErr result (self.new ≡ self.old) }
    {
        if self.cover_with(span, perm) > self.slots {
            return Err(SetRefusal::Slots);
        }
        match self.put(span, perm) {
            Ok(()) => Ok(()),
            Err(NoMemory) => Err(SetRefusal::NoMemory),
        }
    }

    fn put(&mut self, span: &Span, perm: Perm) -> Result<(), NoMemory>
        requires { cover_of (changed (permission_at self.old) span.now perm) ≤ self.old.slots }
        ensures ok { OnOk result (permission_at self.new ≡ changed (permission_at self.old) span.now perm) }
        ensures exact { OnOk result (self.new ≡ span_set self.old span.now perm) }
        ensures slots { self.new.slots ≡ self.old.slots }
        ensures refused { OnErr result (self.new ≡ self.old) }
    {
        let domain = span.domain as usize;
        let end = span.base + span.pages;
        let block = self.domains[domain].with(self.alloc, DOMAIN, span.base, end, perm)?;
        self.cover = self.cover_with(span, perm);
        self.domains[domain] = block;
        Ok(())
    }

    /// The first page of the run whose permission is none. None exactly where there is no such page.
    pub fn first_without(&self, span: &Span) -> Option<Page>
        ensures { FirstPage (λ page. permission_at self.now page ≡ Perm.No) span.now result }
    {
        self.first(span, Sought::Unmapped)
    }

    /// The first page of the run that has a permission other than none. None exactly where there is no
    /// such page.
    pub fn first_with(&self, span: &Span) -> Option<Page>
        ensures { FirstPage (λ page. permission_at self.now page ≢ Perm.No) span.now result }
    {
        self.first(span, Sought::Mapped)
    }

    fn first(&self, span: &Span, sought: Sought) -> Option<Page>
        ensures { FirstPage (λ page. is_sought sought (permission_at self.now page) ≡ true) span.now result }
    {
        let end = span.base + span.pages;
        let number = self
            .domain(span.domain)
            .first(DOMAIN, span.base, end, sought)?;
        Some(Page {
            domain: span.domain,
            number,
        })
    }

    fn domain(&self, number: u8) -> &Block
        requires { number < 16 }
        ensures block { block_view result.now ≡ slice_index_or self.now.domains number (whole No) }
        ensures halved { IsHalved (block_view result.now) 20 }
    {
        &self.domains[number as usize]
    }
}
