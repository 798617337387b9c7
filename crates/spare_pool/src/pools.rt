//! The spare pages of a memory blade.

ghost use Rattle.std.specs.Prelude.{◌≡◌, ℕ, ◌+◌, ◌%◌, ◌^◌, ◌≤◌, ◌↔◌, ◌⊎◌, IsTrue, IfOk, IfSome, IfNone, Contains};
ghost use Rattle.spare_pool.specs.Pool.{IsPool, InRun, IsFreeRun, IsLowestRun, all_free, without_run, with_run};

use crate::runs;
use mind_base::NoMemory;
use std::alloc::Global;
use std::marker::Model;

/// The spare pages of a memory blade, numbered from 0, and which of them are free. Contracts see how
/// many there are, at most 4096, and the list of the free ones, rising.
#[derive(Debug, Drop)]
pub struct Pool {
    free: Vec<bool>,
}

impl Model for Pool {
    ghost use Rattle.std.specs.Prelude.{◌≤◌, length};
    ghost use Rattle.spare_pool.specs.Marks.{marked_from};
    ghost use Rattle.spare_pool.specs.Pool.{PoolView};

    ghost Value = { PoolView };

    ghost view = { λ p. record { pages = length p.free.items; free = marked_from 0 p.free.items } };

    ghost invariant = { λ p. length p.free.items ≤ 4096 };
}

impl Pool {
    /// All pages are free.
    pub fn new(alloc: Global, pages: u32) -> Result<Pool, NoMemory>
        requires { pages ≤ 4096 }
        ensures fresh { IfOk result (λ pool. pool ≡ all_free pages) }
        ensures pool { IfOk result IsPool }
    {
        let free = vec![in alloc; true; pages as usize]?;
        Ok(Pool { free })
    }

    /// Takes the lowest run of 2^`log` free pages that starts at a multiple of its size, and gives its
    /// first page. None exactly where there is no such run; then nothing changes.
    pub fn take(&mut self, log: u8) -> Option<u32>
        requires { log ≤ 9 }
        ensures lowest { IfSome result (λ first. IsLowestRun self.old log first) }
        ensures taken { IfSome result (λ first. self.new ≡ without_run self.old log first) }
        ensures pages { IfSome result (λ first. (page : ℕ) → Contains self.new.free page
            ↔ (Contains self.old.free page × (InRun log first page → ⊥))) }
        ensures none { IfNone result ((first : ℕ) → IsFreeRun self.old log first → ⊥) }
        ensures unchanged { IfNone result (self.new ≡ self.old) }
        ensures pool { IsPool self.new }
    {
        let size = runs::size_of_run(log);
        let Some(first) = runs::lowest_marked(self.free.as_slice(), size) else {
            return None;
        };
        runs::mark_run(self.free.as_mut_slice(), first, size, false);
        Some(first as u32)
    }

    /// Whether there is a run of 2^`log` free pages that starts at a multiple of its size.
    pub fn fits(&self, log: u8) -> bool
        requires { log ≤ 9 }
        ensures fits { IsTrue result ↔ ((first : ℕ) × IsFreeRun self.now log first) }
        ensures pool { IsPool self.now }
    {
        let size = runs::size_of_run(log);
        match runs::lowest_marked(self.free.as_slice(), size) {
            Some(_) => true,
            None => false,
        }
    }

    /// Makes the pages of a run free that was taken.
    pub fn give(&mut self, first: u32, log: u8)
        requires log { log ≤ 9 }
        requires aligned { first % 2 ^ log ≡ 0 }
        requires inside { first + 2 ^ log ≤ self.old.pages }
        requires taken { (page : ℕ) → InRun log first page → Contains self.old.free page → ⊥ }
        ensures given { self.new ≡ with_run self.old log first }
        ensures pages { (page : ℕ) → Contains self.new.free page
            ↔ (Contains self.old.free page ⊎ InRun log first page) }
        ensures pool { IsPool self.new }
    {
        let size = runs::size_of_run(log);
        runs::mark_run(self.free.as_mut_slice(), first as usize, size, true);
    }
}
