//! Entries that come, change, split and merge, by rows.

ghost use Rattle.std.specs.Prelude.{◌<◌, ◌≤◌, ◌^◌};

use mind_base::{Page, State};
use region_directory::{Busy, Directory, Room, Steps, Where};
use std::test::Fail;

fn page(number: u32) -> Page
    requires { number < 2 ^ 20 }
{
    Page { domain: 0, number }
}

/// Makes an entry for the largest free block with this page, where there is none and a slot is free,
/// and gives the block's first page and size.
fn put(directory: &mut Directory, number: u32, log: u8) -> Option<(u32, u8)>
    requires page { number < 2 ^ 20 }
    requires size { log ≤ 9 }
{
    let page = page(number);
    if directory.is_full() || directory.find(page).is_some() {
        return None;
    }
    let range = directory.new_range(page, log);
    directory.insert(range);
    Some((range.base, range.log))
}

fn enter(directory: &mut Directory, i: u32, state: State) -> bool {
    if i >= directory.len() {
        return false;
    }
    directory.set_state(i, state);
    true
}

fn room(directory: &Directory, fetching: &[Page]) -> Option<Room> {
    if directory.is_full() {
        Some(directory.room(fetching))
    } else {
        None
    }
}

#[test]
fn makes_room_by_the_first_rule_that_fits(rt: HostRuntime) -> Result<(), Fail> {
    let mut directory = Directory::new(rt.alloc(), 2, 0)?;
    assert_eq!(rt; put(&mut directory, 0, 0), Some((0, 0)));
    assert_eq!(rt; put(&mut directory, 2, 0), Some((2, 0)));
    assert!(rt; enter(&mut directory, 0, State::S { sharers: 1 }));
    assert_eq!(rt; room(&directory, &[]), Some(Room::Drop { index: 1 }));
    assert!(rt; enter(&mut directory, 1, State::M { owner: 1 }));
    assert_eq!(rt; room(&directory, &[]), Some(Room::Evict { index: 0 }));
    assert_eq!(rt;
        room(&directory, &[page(0)]),
        Some(Room::Evict { index: 1 })
    );
    assert_eq!(rt; room(&directory, &[page(0), page(2)]), Some(Room::Wait));
    Ok(())
}

#[test]
fn keeps_its_entries_in_order(rt: HostRuntime) -> Result<(), Fail> {
    let mut directory = Directory::new(rt.alloc(), 3, 9)?;
    assert!(rt; directory.is_empty());
    assert_eq!(rt; put(&mut directory, 7, 0), Some((7, 0)));
    assert_eq!(rt; put(&mut directory, 0, 0), Some((0, 0)));
    assert_eq!(rt; (directory.len(), directory.slots()), (2, 3));
    assert_eq!(rt; directory.find(page(7)), Some(1));
    assert_eq!(rt; directory.find(page(2)), None);
    assert_eq!(rt; put(&mut directory, 2, 2), Some((2, 1)));
    assert!(rt; directory.is_full());
    assert_eq!(rt; directory.find(page(3)), Some(1));
    Ok(())
}

/// The most steps that it takes to look for one of the first pages, where every other one has an entry
/// of its own, so many of them. None if a page is not found where it is.
fn most_steps(rt: &HostRuntime, entries: u32) -> Result<Option<u64>, Fail>
    requires { entries ≤ 4096 }
{
    let mut directory = Directory::new(rt.alloc(), entries, 0)?;
    for i in 0..entries {
        let _ = put(&mut directory, 2 * i, 0);
    }
    let mut most = 0;
    for number in 0..2 * entries {
        let mut steps = Steps::new();
        let there = directory.find_counted(page(number), &mut steps);
        let known = (number % 2 == 0).then_some(number / 2);
        if there != known {
            return Ok(None);
        }
        most = most.max(steps.count());
    }
    Ok(Some(most))
}

#[test]
fn halves_what_is_left_at_each_step(rt: HostRuntime) -> Result<(), Fail> {
    for (entries, most) in &[(1, 1), (2, 2), (3, 2), (4096, 13)] {
        assert!(rt; *entries <= 4096);
        assert_eq!(rt; most_steps(&rt, *entries)?, Some(*most));
    }
    Ok(())
}

#[test]
fn counts_on_from_the_steps_before(rt: HostRuntime) -> Result<(), Fail> {
    let mut directory = Directory::new(rt.alloc(), 2, 2)?;
    assert_eq!(rt; put(&mut directory, 6, 1), Some((6, 1)));
    assert!(rt; 0 < directory.len());
    let mut steps = Steps::new();
    steps.tick();
    assert_eq!(rt; directory.probe(0, page(5), &mut steps), Where::Before);
    assert_eq!(rt; directory.probe(0, page(7), &mut steps), Where::Inside);
    assert_eq!(rt; directory.probe(0, page(8), &mut steps), Where::After);
    assert_eq!(rt; directory.find_counted(page(7), &mut steps), Some(0));
    assert_eq!(rt; steps.count(), 5);
    Ok(())
}

#[test]
fn changes_one_entry(rt: HostRuntime) -> Result<(), Fail> {
    let mut directory = Directory::new(rt.alloc(), 2, 0)?;
    assert_eq!(rt; put(&mut directory, 5, 0), Some((5, 0)));
    assert_eq!(rt; put(&mut directory, 6, 0), Some((6, 0)));
    let busy = Busy {
        number: 4,
        waiting: 2,
        target: State::I,
        for_room: true,
    };
    assert!(rt; 1 < directory.len());
    directory.set_busy(1, Some(busy));
    assert!(rt; 1 < directory.len());
    directory.add_hits(1, 4_000_000_000);
    assert!(rt; 1 < directory.len());
    directory.add_hits(1, 4_000_000_000);
    assert!(rt; 1 < directory.len());
    let entry = directory.entry(1);
    assert_eq!(rt; (entry.busy, entry.hits), (Some(busy), 4_294_967_295));
    directory.clear_hits();
    assert!(rt; 1 < directory.len());
    assert_eq!(rt; directory.entry(1).hits, 0);
    directory.remove(0);
    assert_eq!(rt; directory.find(page(6)), Some(0));
    Ok(())
}

/// The state of the entry that these two become, where they may, in a directory with blocks of up to
/// two pages.
fn merged(rt: &HostRuntime, lower: State, upper: State) -> Result<Option<State>, Fail> {
    let mut directory = Directory::new(rt.alloc(), 2, 1)?;
    let _ = put(&mut directory, 6, 0);
    let _ = put(&mut directory, 7, 0);
    let _ = enter(&mut directory, 0, lower);
    let _ = enter(&mut directory, 1, upper);
    if directory.is_empty() || directory.merge(0).is_none() || directory.is_empty() {
        return Ok(None);
    }
    Ok(Some(directory.entry(0).state))
}

fn shared(sharers: u8) -> State {
    State::S { sharers }
}

fn owned(owner: u8) -> State {
    State::M { owner }
}

#[test]
fn merges_states_that_go_together(rt: HostRuntime) -> Result<(), Fail> {
    let rows = [
        (State::I, State::I, Some(State::I)),
        (State::I, shared(0b110), Some(shared(0b110))),
        (owned(3), State::I, Some(owned(3))),
        (shared(0b01), shared(0b11), Some(shared(0b11))),
        (shared(0b10), owned(1), Some(owned(1))),
        (shared(0b11), owned(1), None),
        (owned(1), shared(0b100), None),
        (owned(2), owned(2), Some(owned(2))),
        (owned(2), owned(1), None),
    ];
    for (lower, upper, both) in &rows {
        assert_eq!(rt; merged(&rt, *lower, *upper)?, *both);
    }
    Ok(())
}

#[test]
fn splits_a_busy_entry_and_merges_its_halves(rt: HostRuntime) -> Result<(), Fail> {
    let mut directory = Directory::new(rt.alloc(), 3, 1)?;
    assert_eq!(rt; put(&mut directory, 2, 1), Some((2, 1)));
    assert!(rt; enter(&mut directory, 0, owned(1)));
    let busy = Busy {
        number: 3,
        waiting: 2,
        target: State::I,
        for_room: false,
    };
    assert!(rt; 0 < directory.len());
    directory.set_busy(0, Some(busy));
    assert!(rt; 0 < directory.len());
    directory.add_hits(0, 5);
    assert!(rt; 0 < directory.len());
    assert!(rt; directory.split(0));
    assert!(rt; 1 < directory.len());
    let (lower, upper) = (directory.entry(0), directory.entry(1));
    assert_eq!(rt; (lower.range.base, lower.range.log), (2, 0));
    assert_eq!(rt; (upper.range.base, upper.range.log), (3, 0));
    assert_eq!(rt; (lower.state, upper.state), (owned(1), owned(1)));
    assert_eq!(rt; (lower.busy, upper.busy), (Some(busy), Some(busy)));
    assert_eq!(rt; (lower.hits, upper.hits), (0, 0));
    assert!(rt; !directory.split(0));
    assert!(rt; 1 < directory.len());
    assert!(rt; !directory.mergeable(0));
    directory.set_busy(0, None);
    assert!(rt; 1 < directory.len());
    directory.set_busy(1, None);
    assert!(rt; 1 < directory.len());
    assert!(rt; directory.mergeable(0) && !directory.mergeable(1));
    directory.add_hits(0, 4_294_967_290);
    assert!(rt; 1 < directory.len());
    directory.add_hits(1, 6);
    assert!(rt; 1 < directory.len());
    let block = directory.merge(0).map(|range| (range.base, range.log));
    assert_eq!(rt; block, Some((2, 1)));
    assert_eq!(rt; directory.len(), 1);
    assert!(rt; 0 < directory.len());
    assert_eq!(rt; directory.entry(0).hits, 4_294_967_295);
    Ok(())
}
