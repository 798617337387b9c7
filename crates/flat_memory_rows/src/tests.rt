//! Stores and zeroed spans, read back by rows.

use flat_memory::FlatMemory;
use mind_base::{Pending, Place, Span};
use std::test::Fail;

/// A domain, an address in it, and the byte that is to be there.
type Row = (u8, u32, u8);

fn holds(memory: &FlatMemory, row: &Row) -> bool {
    let (domain, address, byte) = *row;
    domain < 16 && memory.byte(Place::of(domain, address)) == byte
}

#[test]
fn a_word_is_read_back_low_byte_first(rt: HostRuntime) -> Result<(), Fail> {
    let rows: [Row; 9] = [
        (3, 0x5ffb, 0x00),
        (3, 0x5ffc, 0x44),
        (3, 0x5ffd, 0x33),
        (3, 0x5ffe, 0x22),
        (3, 0x5fff, 0x11),
        (3, 0x6000, 0x00), // the next page
        (3, 0x4ffc, 0x00), // the page before
        (2, 0x5ffc, 0x00), // another domain
        (15, 0xffff_ffff, 0x00),
    ];
    let mut memory = FlatMemory::new(rt.alloc())?;
    memory.store(3, Pending::of(0x5ffc, 4, 0x1122_3344))?;
    for row in &rows {
        let (domain, address, _) = *row;
        assert!(rt; holds(&memory, row), "domain {domain}, address {address}");
    }
    Ok(())
}

#[test]
fn smaller_stores_change_their_own_bytes_alone(rt: HostRuntime) -> Result<(), Fail> {
    let rows: [Row; 6] = [
        (15, 0xffff_fffb, 0x00),
        (15, 0xffff_fffc, 0x66),
        (15, 0xffff_fffd, 0x55),
        (15, 0xffff_fffe, 0x22),
        (15, 0xffff_ffff, 0x77),
        (15, 0x0000_0000, 0x00),
    ];
    let mut memory = FlatMemory::new(rt.alloc())?;
    memory.store(15, Pending::of(0xffff_fffc, 4, 0x1122_3344))?;
    memory.store(15, Pending::of(0xffff_fffc, 2, 0x9988_5566))?;
    memory.store(15, Pending::of(0xffff_ffff, 1, 0x9988_7777))?;
    for row in &rows {
        let (domain, address, _) = *row;
        assert!(rt; holds(&memory, row), "domain {domain}, address {address}");
    }
    Ok(())
}

#[test]
fn the_pages_of_a_span_become_zero_and_no_others(rt: HostRuntime) -> Result<(), Fail> {
    let rows: [Row; 6] = [
        (3, 0x3008, 0xaa),
        (3, 0x4008, 0x00),
        (3, 0x5008, 0x00),
        (3, 0x6008, 0xaa),
        (2, 0x4008, 0xaa),
        (4, 0x5008, 0xaa),
    ];
    let mut memory = FlatMemory::new(rt.alloc())?;
    for (domain, address, _) in &rows {
        if *domain < 16 {
            memory.store(*domain, Pending::of(*address, 1, 0xaa))?;
        }
    }
    let span = Span {
        domain: 3,
        base: 4,
        pages: 2,
    };
    memory.zero(&span);
    for row in &rows {
        let (domain, address, _) = *row;
        assert!(rt; holds(&memory, row), "domain {domain}, address {address}");
    }
    Ok(())
}
