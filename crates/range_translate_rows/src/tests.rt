//! Places of pages under outliers, by rows.

ghost use Rattle.std.specs.Prelude.{◌≡◌, ◌+◌, ◌≤◌, [], ◌∷◌, IfOk};
ghost use Rattle.mind_base.specs.Range.{IsRange};

use mind_base::{MemoryPlan, NoMemory, Page, Range, Sequence, Span};
use range_translate::{Outlier, Piece, PutRefusal, Table};
use std::alloc::Global;
use std::test::Fail;

fn sixteen_pages(alloc: Global, base: u32) -> Result<MemoryPlan, NoMemory>
    requires { base + 16 ≤ 1048576 }
    ensures { IfOk result (λ m. m ≡ record { homes = record { domain = 0; base = base; pages = 16 } ∷ []; spare = 4 }) }
{
    let mut homes = Sequence::new(alloc);
    homes.push(Span {
        domain: 0,
        base,
        pages: 16,
    })?;
    Ok(MemoryPlan { homes, spare: 4 })
}

/// The homes of pages 0 to 15 on memory blade 0 and of pages 16 to 31 on memory blade 1.
fn base_table(alloc: Global, slots: u32) -> Result<Table, NoMemory>
    ensures { IfOk result (λ table. table ≡ record {
      homes = record { homes = record { domain = 0; base = 0; pages = 16 } ∷ []; spare = 4 }
          ∷ record { homes = record { domain = 0; base = 16; pages = 16 } ∷ []; spare = 4 } ∷ [];
      slots = slots;
      outliers = [];
    }) }
{
    let mut memories = Vec::new(alloc);
    memories.push(sixteen_pages(alloc, 0)?)?;
    memories.push(sixteen_pages(alloc, 16)?)?;
    Table::new(alloc, memories.as_slice(), slots)
}

fn page(number: u32) -> Page
    requires { number ≤ 1000 }
    ensures { result ≡ record { domain = 0; number = number } }
{
    Page { domain: 0, number }
}

/// A block of 2^`log` pages that lies behind the homes of a memory blade.
fn outlier(base: u32, log: u8, memory: u8) -> Outlier
    requires { IsRange 0 base log }
    ensures { result ≡ record { range = record { domain = 0; base = base; log = log }; memory = memory; first = 16 } }
{
    let range = Range {
        domain: 0,
        base,
        log,
    };
    Outlier {
        range,
        memory,
        first: 16,
    }
}

#[test]
fn pages_lie_in_the_smallest_outlier(rt: HostRuntime) -> Result<(), Fail> {
    let mut table = base_table(rt.alloc(), 2)?;
    let four = outlier(0, 2, 1);
    let two = outlier(2, 1, 0);
    let put = table.put_outlier(four);
    assert_eq!(rt; put, Ok(()));
    let put = table.put_outlier(two);
    assert_eq!(rt; put, Ok(()));
    assert_eq!(rt; table.place(page(2)), Some((0, 16)));
    assert_eq!(rt; table.place(page(1)), Some((1, 17)));
    assert_eq!(rt; table.place(page(4)), Some((0, 4)));
    assert_eq!(rt; table.place(page(32)), None);
    assert_eq!(rt; table.home(page(17)), Some((1, 1)));
    Ok(())
}

#[test]
fn an_outlier_too_many_is_refused(rt: HostRuntime) -> Result<(), Fail> {
    let mut table = base_table(rt.alloc(), 1)?;
    let four = outlier(0, 2, 1);
    let two = outlier(2, 1, 0);
    let put = table.put_outlier(four);
    assert_eq!(rt; put, Ok(()));
    let put = table.put_outlier(two);
    assert_eq!(rt; put, Err(PutRefusal::Slots));
    assert_eq!(rt; table.count(), 1);
    assert_eq!(rt; table.slots(), 1);
    assert_eq!(rt; table.inside(&four.range), 1);
    assert_eq!(rt; table.encloses(&two.range), true);
    assert_eq!(rt; table.next_inside(&four.range), Some(four));
    assert_eq!(rt; table.remove(&two.range), None);
    assert_eq!(rt; table.remove(&four.range), Some(four));
    assert_eq!(rt; table.count(), 0);
    Ok(())
}

fn piece(memory: u8, first: u32) -> Piece
    ensures { result ≡ record { memory = memory; first = first; pages = 2 } }
{
    Piece {
        memory,
        first,
        pages: 2,
    }
}

#[test]
fn pieces_are_the_longest_runs(rt: HostRuntime) -> Result<(), Fail> {
    let mut table = base_table(rt.alloc(), 2)?;
    let two = outlier(2, 1, 1);
    let put = table.put_outlier(two);
    assert_eq!(rt; put, Ok(()));
    assert_eq!(rt; table.spare_base(1), 16);
    let pieces = table.pieces(&Span {
        domain: 0,
        base: 0,
        pages: 6,
    })?;
    let want = [piece(0, 0), piece(1, 16), piece(0, 4)];
    assert_eq!(rt; pieces.as_slice(), want.as_slice());
    Ok(())
}
