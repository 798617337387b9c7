//! Moves one after another, by rows.

ghost use Rattle.std.specs.Prelude.{◌≡◌, ◌+◌, ◌<◌, ◌≤◌, ◌%◌, ◌^◌, [], ◌∷◌, IfOk};
ghost use Rattle.range_translate.specs.Table.{IsTable};
ghost use Rattle.spare_pool.specs.Pool.{all_free};
ghost use Rattle.range_migrate.specs.Migrates.{AreReached};

use mind_base::{MemoryPlan, NoMemory, Outcome, Page, Range, Sequence, Span};
use range_migrate::migrate;
use range_translate::Table;
use spare_pool::Pool;
use std::alloc::Global;
use std::test::Fail;

fn sixteen_pages(base: u32) -> Span
    requires { base + 16 ≤ 1048576 }
    ensures { result ≡ record { domain = 0; base = base; pages = 16 } }
{
    let pages = 16;
    Span {
        domain: 0,
        base,
        pages,
    }
}

/// A memory blade with one run of homes and four spare pages.
fn memory_with(alloc: Global, home: Span) -> Result<MemoryPlan, NoMemory>
    ensures { IfOk result (λ m. m ≡ record { homes = home ∷ []; spare = 4 }) }
{
    let mut homes = Sequence::new(alloc);
    homes.push(home)?;
    Ok(MemoryPlan { homes, spare: 4 })
}

/// The homes of pages 0 to 15 on memory blade 0 and of pages 16 to 31 on memory blade 1, and two slots.
fn base_table(alloc: Global) -> Result<Table, NoMemory>
    ensures empty { IfOk result (λ table. table ≡ record {
      homes = record { homes = record { domain = 0; base = 0; pages = 16 } ∷ []; spare = 4 }
          ∷ record { homes = record { domain = 0; base = 16; pages = 16 } ∷ []; spare = 4 } ∷ [];
      slots = 2;
      outliers = [];
    }) }
    ensures table { IfOk result IsTable }
{
    let mut memories = Vec::new(alloc);
    memories.push(memory_with(alloc, sixteen_pages(0))?)?;
    memories.push(memory_with(alloc, sixteen_pages(16))?)?;
    Table::new(alloc, memories.as_slice(), 2)
}

/// A pool of four spare pages for each of two memory blades.
fn base_pools(alloc: Global) -> Result<Vec<Pool>, NoMemory>
    ensures { IfOk result (λ pools. pools.items ≡ all_free 4 ∷ all_free 4 ∷ []) }
{
    let mut pools = Vec::new(alloc);
    pools.push(Pool::new(alloc, 4)?)?;
    pools.push(Pool::new(alloc, 4)?)?;
    Ok(pools)
}

/// How the row's migrate ends.
fn outcome_of(row: &Row, table: &mut Table, pools: &mut Vec<Pool>) -> Outcome
    requires reached { AreReached table.old pools.old.items }
    ensures reached { AreReached table.new pools.new.items }
{
    if row.memory as usize >= pools.len() {
        return Outcome::Unmapped;
    }
    match migrate(&row.range, row.memory, table, pools) {
        Ok(_) => Outcome::Fine,
        Err(outcome) => outcome,
    }
}

/// A block of domain 0, the memory blade that it is to move to, and how that ends.
#[derive(Clone, Copy)]
struct Row {
    range: Range,
    memory: u8,
    outcome: Outcome,
}

/// The first row whose migrate ends otherwise, after those before it.
fn first_other(rows: &[Row], table: &mut Table, pools: &mut Vec<Pool>) -> Option<usize>
    requires reached { AreReached table.old pools.old.items }
{
    for (i, row) in rows.iter().enumerate() {
        if outcome_of(row, table, pools) != row.outcome {
            return Some(i);
        }
    }
    None
}

fn row_of(base: u32, log: u8, memory: u8, outcome: Outcome) -> Row
    requires log { log ≤ 9 }
    requires base { base < 1048576 }
    requires aligned { base % 2 ^ log ≡ 0 }
{
    Row {
        range: Range {
            domain: 0,
            base,
            log,
        },
        memory,
        outcome,
    }
}

fn page(number: u32) -> Page
    requires { number < 1000 }
{
    Page { domain: 0, number }
}

#[test]
fn each_move_ends_as_the_ones_before_it_let_it(rt: HostRuntime) -> Result<(), Fail> {
    let mut table = base_table(rt.alloc())?;
    let mut pools = base_pools(rt.alloc())?;
    let rows = [
        row_of(0, 1, 0, Outcome::Same),
        row_of(0, 3, 1, Outcome::Room),
        row_of(32, 0, 1, Outcome::Unplaced),
        row_of(0, 0, 1, Outcome::Fine),
        row_of(2, 0, 1, Outcome::Fine),
        row_of(4, 0, 1, Outcome::Slots),
        row_of(0, 0, 0, Outcome::Fine),
        row_of(4, 0, 1, Outcome::Fine),
    ];
    assert_eq!(rt; first_other(&rows, &mut table, &mut pools), None);
    assert_eq!(rt; table.place(page(0)), Some((0, 0)));
    assert_eq!(rt; table.place(page(2)), Some((1, 17)));
    assert_eq!(rt; table.place(page(4)), Some((1, 16)));
    Ok(())
}
