//! Runs of spare pages, taken from the pools and given back.

ghost use Rattle.std.specs.Prelude.{◌≡◌, ◌+◌, ◌<◌, ◌≤◌, ◌^◌, ◌%◌, ◌↔◌, ◌⊎◌, ℕ, length, map, slice_get, IsTrue, IsSomeAnd};
ghost use Rattle.spare_pool.specs.Pool.{PoolView, IsPool, InRun};
ghost use Rattle.range_migrate.specs.Run.{IsFreeAt};
ghost use Rattle.range_migrate.specs.Plan.{HasFreeRun, IsLowestRunAt};

use spare_pool::Pool;

/// Whether the memory blade has a free run of 2^`log` spare pages.
pub fn has_run(pools: &[Pool], memory: u8, log: u8) -> bool
    requires log { log ≤ 9 }
    requires there { memory < length pools.now }
    ensures free { IsTrue result ↔ HasFreeRun (IsFreeAt pools.now) memory log }
    ensures pool { IsSomeAnd (slice_get pools.now memory) IsPool }
{
    pools[memory as usize].fits(log)
}

/// Takes the lowest free run of 2^`log` spare pages of the memory blade, and gives its first page.
pub fn take_run(pools: &mut Vec<Pool>, memory: u8, log: u8) -> u32
    requires log { log ≤ 9 }
    requires there { memory < length pools.old.items }
    requires free { HasFreeRun (IsFreeAt pools.old.items) memory log }
    ensures lowest { IsLowestRunAt (IsFreeAt pools.old.items) memory log result }
    ensures taken { (m page : ℕ) → IsFreeAt pools.new.items m page
        ↔ (IsFreeAt pools.old.items m page × ((memory ≡ m) × InRun log result page → ⊥)) }
    ensures pages { map (λ (pool : PoolView). pool.pages) pools.new.items ≡ map (λ (pool : PoolView). pool.pages) pools.old.items }
{
    let pool = &mut pools[memory as usize];
    let Some(first) = pool.take(log) else {
        unreachable!();
    };
    first
}

/// Makes the pages of a run free that none has any more.
pub fn give_run(pools: &mut Vec<Pool>, memory: u8, first: u32, log: u8)
    requires log { log ≤ 9 }
    requires there { memory < length pools.old.items }
    requires aligned { first % 2 ^ log ≡ 0 }
    requires inside { IsSomeAnd (slice_get pools.old.items memory) (λ pool. first + 2 ^ log ≤ pool.pages) }
    requires taken { (page : ℕ) → InRun log first page → IsFreeAt pools.old.items memory page → ⊥ }
    ensures given { (m page : ℕ) → IsFreeAt pools.new.items m page
        ↔ (IsFreeAt pools.old.items m page ⊎ ((memory ≡ m) × InRun log first page)) }
    ensures pages { map (λ (pool : PoolView). pool.pages) pools.new.items ≡ map (λ (pool : PoolView). pool.pages) pools.old.items }
{
    let pool = &mut pools[memory as usize];
    pool.give(first, log);
}
