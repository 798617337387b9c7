//! A table of two slots, and one of a map.

ghost use Rattle.std.specs.Prelude.{◌<◌};

use mind_base::{MapPlan, Page, Perm, Span};
use protect_table::{Protect, SetRefusal};
use std::test::Fail;

fn page(number: u32) -> Page
    requires { number < 1048576 }
{
    Page { domain: 3, number }
}

/// A run of pages, the permission that it is to have, the slots which that takes, how it ends, and the slots
/// taken and the permission of page 5 behind it.
#[derive(Clone, Copy)]
struct Row {
    span: Span,
    perm: Perm,
    takes: u32,
    set: Result<(), SetRefusal>,
    cover: u32,
    fifth: Perm,
}

fn rows() -> [Row; 3] {
    [
        Row {
            span: Span {
                domain: 3,
                base: 4,
                pages: 4,
            },
            perm: Perm::Rw,
            takes: 1,
            set: Ok(()),
            cover: 1,
            fifth: Perm::Rw,
        },
        Row {
            span: Span {
                domain: 3,
                base: 5,
                pages: 1,
            },
            perm: Perm::R,
            takes: 3,
            set: Err(SetRefusal::Slots),
            cover: 1,
            fifth: Perm::Rw,
        },
        Row {
            span: Span {
                domain: 3,
                base: 6,
                pages: 2,
            },
            perm: Perm::R,
            takes: 2,
            set: Ok(()),
            cover: 2,
            fifth: Perm::Rw,
        },
    ]
}

#[test]
fn a_block_more_than_the_slots_is_refused(rt: HostRuntime) -> Result<(), Fail> {
    let mut table = Protect::new(rt.alloc(), 2)?;
    assert_eq!(rt; table.slots(), 2);
    assert_eq!(rt; table.cover(), 0);
    for row in &rows() {
        assert_eq!(rt; table.cover_with(&row.span, row.perm), row.takes);
        assert_eq!(rt; table.set(&row.span, row.perm), row.set);
        assert_eq!(rt; table.cover(), row.cover);
        assert_eq!(rt; table.perm(page(5)), row.fifth);
    }
    assert_eq!(rt; table.perm(page(6)), Perm::R);
    assert_eq!(rt; table.perm(page(8)), Perm::No);
    Ok(())
}

#[test]
fn the_first_page_is_found(rt: HostRuntime) -> Result<(), Fail> {
    let run = Span {
        domain: 3,
        base: 0,
        pages: 64,
    };
    let mapped = Span {
        domain: 3,
        base: 10,
        pages: 7,
    };
    let maps = [MapPlan {
        span: mapped,
        perm: Perm::R,
    }];
    let table = Protect::of(rt.alloc(), 16777216, &maps)?;
    assert_eq!(rt; table.cover(), 3);
    assert_eq!(rt; table.first_with(&run), Some(page(10)));
    assert_eq!(rt; table.first_without(&run), Some(page(0)));
    assert_eq!(rt; table.first_without(&mapped), None);
    Ok(())
}
