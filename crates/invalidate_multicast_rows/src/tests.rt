//! Transitions from their beginning to their last answer, by rows.

ghost use Rattle.std.specs.Prelude.{◌<◌, ◌^◌, ◌≢◌};

use invalidate_multicast::{Cast, ack, begin, ended, targets};
use mind_base::{Page, Range, State};
use region_directory::{Busy, Directory, Entry};
use std::test::Fail;

/// Makes an entry for this page alone, where there is none and a slot is free.
fn put(directory: &mut Directory, number: u32) -> bool
    requires { number < 2 ^ 20 }
{
    let page = Page { domain: 0, number };
    if directory.is_full() || directory.find(page).is_some() {
        return false;
    }
    let range = directory.new_range(page, 0);
    directory.insert(range);
    true
}

/// Begins a transition with this number that waits for these blades, where none is under way.
fn start(directory: &mut Directory, i: u32, number: u32, waiting: u8) -> bool
    requires { waiting ≢ 0 }
{
    if i >= directory.len() || directory.entry(i).busy.is_some() {
        return false;
    }
    begin(
        directory,
        i,
        Busy {
            number,
            waiting,
            target: State::S { sharers: 1 },
            for_room: false,
        },
    );
    true
}

/// The blades that entry `i` waits for, and its hits.
fn stands(directory: &Directory, i: u32) -> Option<(u8, u32)> {
    if i >= directory.len() {
        return None;
    }
    let Entry { busy, hits, .. } = directory.entry(i);
    Some((busy?.waiting, hits))
}

#[test]
fn each_blade_is_told_once(rt: HostRuntime) -> Result<(), Fail> {
    let casts = targets(rt.alloc(), 0b1000_0101)?;
    let told = [Cast { blade: 0 }, Cast { blade: 2 }, Cast { blade: 7 }];
    assert_eq!(rt; casts.as_slice(), told.as_slice());
    Ok(())
}

#[test]
fn answers_end_transitions(rt: HostRuntime) -> Result<(), Fail> {
    let mut directory = Directory::new(rt.alloc(), 3, 0)?;
    for number in 0..3 {
        assert!(rt; put(&mut directory, number));
    }
    assert!(rt; start(&mut directory, 0, 8, 0b11));
    assert!(rt; start(&mut directory, 1, 9, 0b10));
    assert!(rt; start(&mut directory, 2, 9, 0b110));
    assert_eq!(rt; ended(&mut directory), None);
    ack(&mut directory, 9, 1, 5);
    assert_eq!(rt; stands(&directory, 0), Some((0b11, 0)));
    assert_eq!(rt; stands(&directory, 1), Some((0, 5)));
    assert_eq!(rt; stands(&directory, 2), Some((0b100, 0)));
    let second = Range {
        domain: 0,
        base: 1,
        log: 0,
    };
    assert_eq!(rt;
        ended(&mut directory),
        Some((second, State::S { sharers: 1 }))
    );
    assert_eq!(rt; ended(&mut directory), None);
    assert_eq!(rt; stands(&directory, 1), None);
    ack(&mut directory, 9, 2, 4_294_967_295);
    assert_eq!(rt; stands(&directory, 2), Some((0, 4_294_967_295)));
    Ok(())
}
