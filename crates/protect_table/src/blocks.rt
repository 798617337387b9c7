//! Permissions as a tree of aligned blocks, halved where they differ.

ghost use Rattle.std.specs.Prelude.{◌≡◌, ◌≤◌, ◌<◌, ◌^◌, ◌-◌, ◌+◌, IfOk, IfSome};
ghost use Rattle.protect_table.specs.Block.{whole, block_view, permission_in, whole_of, is_same, lies_apart, lies_inside, IsHalved, lower_of, upper_of, joined, block_set, tally_of, joined_tally, is_sought, first_in};

use mind_base::{NoMemory, Perm};
use std::alloc::Global;

/// The permissions of an aligned block of pages: one that all of them have, or those of its two
/// halves, the lower one first. Its number of pages, a power of two, is known to whoever has it.
#[derive(Debug, Drop)]
pub enum Block {
    Whole(Perm),
    Halves(Box<Block>, Box<Block>),
}

/// What a block counts: its permission, where it is kept as one, and how many blocks it has that are
/// of one permission other than none.
#[derive(Clone, Copy, Debug, PartialEq, Eq)]
pub struct Tally {
    pub whole: Option<Perm>,
    pub blocks: u32,
}

/// Which pages are looked for: those with permission none, or those with another.
#[derive(Clone, Copy, Debug, PartialEq, Eq)]
pub enum Sought {
    Unmapped,
    Mapped,
}

impl Sought {
    fn fits(self, perm: Perm) -> bool
        ensures { result ≡ is_sought self perm }
    {
        match self {
            Sought::Unmapped => perm == Perm::No,
            Sought::Mapped => perm != Perm::No,
        }
    }
}

impl Tally {
    /// What a block of one permission counts.
    fn of(perm: Perm) -> Tally
        ensures { result ≡ tally_of (whole perm) }
    {
        let blocks = if perm == Perm::No { 0 } else { 1 };
        Tally {
            whole: Some(perm),
            blocks,
        }
    }

    /// What a block with these halves counts.
    fn joined(lower: Tally, upper: Tally) -> Tally
        requires { lower.blocks + upper.blocks < 2 ^ 32 }
        ensures { result ≡ joined_tally lower upper }
    {
        if same(lower.whole, upper.whole) {
            return lower;
        }
        Tally {
            whole: None,
            blocks: lower.blocks + upper.blocks,
        }
    }
}

/// How many pages a block of this logarithm has.
fn block_size(log: u32) -> u32
    requires { log ≤ 20 }
    ensures { result ≡ 2 ^ log }
{
    1 << log
}

/// No page of a block of so many pages is numbered `from` to below `to`.
fn is_apart(pages: u32, from: u32, to: u32) -> bool
    ensures { result ≡ lies_apart pages from to }
{
    pages <= from || to <= from
}

/// Each page of it is.
fn is_inside(pages: u32, from: u32, to: u32) -> bool
    ensures { result ≡ lies_inside pages from to }
{
    from == 0 && pages <= to
}

fn same(lower: Option<Perm>, upper: Option<Perm>) -> bool
    ensures { result ≡ is_same lower upper }
{
    match (lower, upper) {
        (Some(p), Some(q)) => p == q,
        _ => false,
    }
}

impl Block {
    /// The permission of one page of a block of 2^`log` pages, numbered from 0.
    pub fn permission(&self, log: u32, page: u32) -> Perm
        requires log { log ≤ 20 }
        requires halved { IsHalved (block_view self.now) log }
        ensures { result ≡ permission_in (block_view self.now) log page }
    {
        match self {
            Block::Whole(perm) => *perm,
            Block::Halves(lower, upper) => {
                let half = block_size(log - 1);
                if page < half {
                    lower.permission(log - 1, page)
                } else {
                    upper.permission(log - 1, page - half)
                }
            }
        }
    }

    /// An equal block.
    pub fn copy(&self, alloc: Global) -> Result<Block, NoMemory>
        ensures { IfOk result (λ block. block_view block ≡ block_view self.now) }
    {
        match self {
            Block::Whole(perm) => Ok(Block::Whole(*perm)),
            Block::Halves(lower, upper) => {
                let lower = Box::new(alloc, lower.copy(alloc)?)?;
                let upper = Box::new(alloc, upper.copy(alloc)?)?;
                Ok(Block::Halves(lower, upper))
            }
        }
    }

    fn whole(&self) -> Option<Perm>
        ensures { result ≡ whole_of (block_view self.now) }
    {
        match self {
            Block::Whole(perm) => Some(*perm),
            Block::Halves(_, _) => None,
        }
    }

    fn lower(&self) -> &Block
        ensures { block_view result.now ≡ lower_of (block_view self.now) }
    {
        match self {
            Block::Whole(_) => self,
            Block::Halves(lower, _) => lower,
        }
    }

    fn upper(&self) -> &Block
        ensures { block_view result.now ≡ upper_of (block_view self.now) }
    {
        match self {
            Block::Whole(_) => self,
            Block::Halves(_, upper) => upper,
        }
    }

    fn joined(alloc: Global, lower: Block, upper: Block) -> Result<Block, NoMemory>
        ensures { IfOk result (λ block. block_view block ≡ joined (block_view lower) (block_view upper)) }
    {
        if same(lower.whole(), upper.whole()) {
            return Ok(lower);
        }
        let lower = Box::new(alloc, lower)?;
        let upper = Box::new(alloc, upper)?;
        Ok(Block::Halves(lower, upper))
    }

    /// What a block of 2^`log` pages counts.
    pub fn tally(&self, log: u32) -> Tally
        requires log { log ≤ 20 }
        requires halved { IsHalved (block_view self.now) log }
        ensures tally { result ≡ tally_of (block_view self.now) }
        ensures most { result.blocks ≤ 2 ^ log }
    {
        match self {
            Block::Whole(perm) => Tally::of(*perm),
            Block::Halves(lower, upper) => {
                let lower = lower.tally(log - 1);
                let upper = upper.tally(log - 1);
                Tally {
                    whole: None,
                    blocks: lower.blocks + upper.blocks,
                }
            }
        }
    }

    /// A block of 2^`log` pages like this one, but for its pages numbered `from` to below `to`, which
    /// have this permission.
    pub fn with(
        &self,
        alloc: Global,
        log: u32,
        from: u32,
        to: u32,
        perm: Perm,
    ) -> Result<Block, NoMemory>
        requires log { log ≤ 20 }
        ensures { IfOk result (λ block. block_view block ≡ block_set log (block_view self.now) from to perm) }
    {
        let pages = block_size(log);
        if is_apart(pages, from, to) {
            return self.copy(alloc);
        }
        if is_inside(pages, from, to) {
            return Ok(Block::Whole(perm));
        }
        let half = block_size(log - 1);
        let lower = self.lower().with(alloc, log - 1, from, to, perm)?;
        let upper = self.upper().with(
            alloc,
            log - 1,
            from.saturating_sub(half),
            to.saturating_sub(half),
            perm,
        )?;
        Block::joined(alloc, lower, upper)
    }

    /// What that block would count.
    pub fn tally_with(&self, log: u32, from: u32, to: u32, perm: Perm) -> Tally
        requires log { log ≤ 20 }
        requires halved { IsHalved (block_view self.now) log }
        ensures tally { result ≡ tally_of (block_set log (block_view self.now) from to perm) }
        ensures most { result.blocks ≤ 2 ^ log }
    {
        let pages = block_size(log);
        if is_apart(pages, from, to) {
            return self.tally(log);
        }
        if is_inside(pages, from, to) {
            return Tally::of(perm);
        }
        let half = block_size(log - 1);
        let lower = self.lower().tally_with(log - 1, from, to, perm);
        let upper = self.upper().tally_with(
            log - 1,
            from.saturating_sub(half),
            to.saturating_sub(half),
            perm,
        );
        Tally::joined(lower, upper)
    }

    /// The first of the pages numbered `from` to below `to` of a block of 2^`log` pages that is looked
    /// for.
    pub fn first(&self, log: u32, from: u32, to: u32, sought: Sought) -> Option<u32>
        requires log { log ≤ 20 }
        requires halved { IsHalved (block_view self.now) log }
        ensures first { result ≡ first_in sought (block_view self.now) log from to }
        ensures within { IfSome result (λ n. n < 2 ^ log) }
    {
        let pages = block_size(log);
        if is_apart(pages, from, to) {
            return None;
        }
        match self {
            Block::Whole(perm) => { if sought.fits(*perm) { Some(from) } else { None } }
            Block::Halves(lower, upper) => {
                let half = block_size(log - 1);
                if let Some(n) = lower.first(log - 1, from, to, sought) {
                    return Some(n);
                }
                let upper_from = from.saturating_sub(half);
                let n = upper.first(log - 1, upper_from, to.saturating_sub(half), sought)?;
                Some(half + n)
            }
        }
    }
}
