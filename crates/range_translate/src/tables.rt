//! The table of places: homes, and the blocks that lie elsewhere.

ghost use Rattle.std.specs.Prelude.{◌≡◌, ◌≢◌, ◌+◌, ◌^◌, ◌<◌, ◌≤◌, ◌↔◌, ◌⊎◌, [], ◌∷◌, length, map, slice_get, find, filter, count_by, not, All, IsTrue, IsErr, IsSome, IfSome, IfOk, OnOk, OnErr};
ghost use Rattle.std.specs.List.{flat_map, list_any};
ghost use Rattle.mind_base.specs.Home.{home_of};
ghost use Rattle.mind_base.specs.Fit.{AreApart, all_homes};
ghost use Rattle.range_translate.specs.Block.{block_lies_inside, encloses, comes_before};
ghost use Rattle.range_translate.specs.Place.{pages_of, physical_place};
ghost use Rattle.mind_base.specs.Page.{PageView};
ghost use Rattle.mind_base.specs.Span.{InSpan};
ghost use Rattle.mind_base.specs.Range.{same_range};
ghost use Rattle.range_translate.specs.Piece.{pages_in, places_in, pieces_of, AreLongest};
ghost use Rattle.range_translate.specs.Order.{put_in_order};
ghost use Rattle.range_translate.specs.Table.{IsTable};

use crate::{Outlier, Piece, PutRefusal, homes, pieces, search};
use mind_base::{MemoryPlan, NoMemory, Page, Range, Sequence, Span, copies_of};
use std::alloc::Global;
use std::marker::Model;

/// Where the pages of a rack lie: the homes of its memory blades, and at most `slots` outliers over
/// them. Contracts see the homes, the slots, and the outliers by domain, first page and size.
#[derive(Debug, Drop)]
pub struct Table {
    alloc: Global,
    memories: Sequence<MemoryPlan>,
    slots: u32,
    outliers: Vec<Outlier>,
}

impl Model for Table {
    ghost use Rattle.std.specs.Prelude.{◌≤◌, vec_capacity};
    ghost use Rattle.range_translate.specs.Table.{TableView, IsTable};

    ghost Value = { TableView };

    ghost view = { λ t. record { homes = t.memories; slots = t.slots; outliers = t.outliers.items } };

    ghost invariant = { λ t. IsTable (record { homes = t.memories; slots = t.slots; outliers = t.outliers.items })
        × (t.slots ≤ vec_capacity t.outliers) };
}

impl Table {
    /// A table without outliers. It takes all the memory that its outliers will need.
    pub fn new(alloc: Global, memories: &[MemoryPlan], slots: u32) -> Result<Table, NoMemory>
        requires apart { AreApart (all_homes memories.now) }
        requires few { length memories.now ≤ 8 }
        requires spare { All (λ m. m.spare ≤ 4096) memories.now }
        ensures empty { IfOk result (λ table. table ≡ record { homes = memories.now; slots = slots; outliers = [] }) }
        ensures table { IfOk result IsTable }
    {
        let memories = copies_of(alloc, memories)?;
        let outliers = Vec::with_capacity(alloc, slots as usize)?;
        Ok(Table {
            alloc,
            memories,
            slots,
            outliers,
        })
    }

    /// The memory blade where the page lies, and its physical number there: in the smallest outlier
    /// that has it, else at its home. None exactly where the page has no home.
    pub fn place(&self, page: Page) -> Option<(u8, u32)>
        ensures place { result ≡ physical_place self.now.homes self.now.outliers page }
        ensures below { IfSome result (λ place. place.1 < 4294967295) }
        ensures table { IsTable self.now }
    {
        let home = homes::home_of(self.memories.as_slice(), page)?;
        match search::smallest_of(self.outliers.as_slice(), page) {
            None => Some(home),
            Some(outlier) => Some(search::place_in(&outlier, page)),
        }
    }

    /// The memory blade where the page has its home, and its physical number there; None exactly where
    /// it has none.
    pub fn home(&self, page: Page) -> Option<(u8, u32)>
        ensures { result ≡ home_of self.now.homes page }
    {
        homes::home_of(self.memories.as_slice(), page)
    }

    /// Enters an outlier. Refused exactly where all slots are taken; then nothing changes.
    pub fn put_outlier(&mut self, outlier: Outlier) -> Result<(), PutRefusal>
        requires apart { All (λ other. other.range ≢ outlier.range) self.old.outliers }
        requires fits { outlier.first + 2 ^ outlier.range.log ≤ 4294967295 }
        ensures put { OnOk result (self.new ≡ record self.old { outliers = put_in_order outlier self.old.outliers }) }
        ensures slots { IsErr result ↔ (self.old.slots ≤ length self.old.outliers) }
        ensures unchanged { OnErr result (self.new ≡ self.old) }
        ensures table { IsTable self.new }
    {
        if self.outliers.len() >= self.slots as usize {
            return Err(PutRefusal::Slots);
        }
        let range = &outlier.range;
        prove!(range.log <= 9);
        search::put(&mut self.outliers, outlier);
        Ok(())
    }

    /// The first outlier, by first page and size, whose block lies inside this one, which may be the
    /// block itself; None exactly where there is none.
    pub fn next_inside(&self, range: &Range) -> Option<Outlier>
        ensures found { result ≡ find (λ o. block_lies_inside o.range range.now) self.now.outliers }
        ensures first { IfSome result (λ o. All (λ p. IsTrue (block_lies_inside p.range range.now)
            → (p ≡ o) ⊎ IsTrue (comes_before o.range p.range)) self.now.outliers) }
        ensures table { IsTable self.now }
    {
        search::first_inside(self.outliers.as_slice(), range)
    }

    /// Takes out the outlier of just this block; None exactly where there is none.
    pub fn remove(&mut self, range: &Range) -> Option<Outlier>
        ensures found { result ≡ find (λ o. same_range o.range range.now) self.old.outliers }
        ensures left { self.new ≡ record self.old { outliers = filter (λ o. not (same_range o.range range.now)) self.old.outliers } }
        ensures table { IsTable self.new }
    {
        let found = search::with_range(self.outliers.as_slice(), range);
        search::drop_range(&mut self.outliers, range);
        found
    }

    /// Whether a larger outlier has all pages of the block.
    pub fn encloses(&self, range: &Range) -> bool
        ensures { result ≡ list_any (λ o. encloses o.range range.now) self.now.outliers }
    {
        search::any_encloses(self.outliers.as_slice(), range)
    }

    pub fn count(&self) -> u32
        ensures { result ≡ length self.now.outliers }
    {
        self.outliers.len() as u32
    }

    /// How many outliers lie inside the block, the block itself included.
    pub fn inside(&self, range: &Range) -> u32
        ensures { result ≡ count_by (λ o. block_lies_inside o.range range.now) self.now.outliers }
    {
        search::count_inside(self.outliers.as_slice(), range) as u32
    }

    /// How many outliers there may be.
    pub fn slots(&self) -> u32
        ensures { result ≡ self.now.slots }
    {
        self.slots
    }

    /// How many home pages the memory blade has, which is the physical number of its first spare page.
    pub fn spare_base(&self, memory: u8) -> u32
        requires { memory < length self.now.homes }
        ensures pages { slice_get (map (λ m. pages_of m.homes) self.now.homes) memory ≡ Some result }
        ensures few { result ≤ 16777216 }
        ensures table { IsTable self.now }
    {
        homes::spare_base(self.memories.as_slice(), memory as usize)
    }

    /// The longest runs of pages of the span, in order, whose places follow one another in one memory
    /// blade.
    pub fn pieces(&self, span: &Span) -> Result<Vec<Piece>, NoMemory>
        requires { (page : PageView) → InSpan span.now page → IsSome (physical_place self.now.homes self.now.outliers page) }
        ensures places { IfOk result (λ pieces. map Some (flat_map places_in pieces.items)
            ≡ map (physical_place self.now.homes self.now.outliers) (pages_in span.now)) }
        ensures longest { IfOk result (λ pieces. AreLongest pieces.items) }
        ensures exact { IfOk result (λ pieces. pieces.items
            ≡ pieces_of (physical_place self.now.homes self.now.outliers) span.now) }
        ensures few { IfOk result (λ pieces. length pieces.items ≤ span.now.pages) }
        ensures short { IfOk result (λ pieces. All (λ piece. (0 < piece.pages) × (piece.pages ≤ span.now.pages)) pieces.items) }
    {
        let mut found = Vec::new(self.alloc);
        for i in 0..span.pages {
            let page = Page {
                domain: span.domain,
                number: span.base + i,
            };
            let Some((memory, number)) = self.place(page) else {
                unreachable!();
            };
            pieces::add_place(&mut found, memory, number)?;
        }
        Ok(found)
    }
}
