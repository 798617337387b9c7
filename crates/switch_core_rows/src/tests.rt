//! One message to a new switch: a request, or a page that comes back.

use crate::switches::{Deeds, new_switch, received, up};
use mind_base::{LinkKind, LinkName, Note, Page, Range, State, Stop};
use page_image::PageImage;
use std::alloc::Global;
use std::test::Fail;
use wire_msg::Msg;

/// A request of a blade for a page of domain 0, and what the switch does: whether it reads the page for the
/// blade, at this physical number of memory blade 1, and the state that the page's entry has then.
#[derive(Clone, Copy)]
struct Row {
    blade: u8,
    page: u32,
    write: bool,
    read: Option<u32>,
    base: u32,
    state: State,
}

static ROWS: [Row; 6] = [
    // a page to read, and one to write: the blade is named
    Row {
        blade: 0,
        page: 1,
        write: false,
        read: Some(1),
        base: 0,
        state: State::S { sharers: 1 },
    },
    Row {
        blade: 1,
        page: 1,
        write: false,
        read: Some(1),
        base: 0,
        state: State::S { sharers: 2 },
    },
    Row {
        blade: 1,
        page: 1,
        write: true,
        read: Some(1),
        base: 0,
        state: State::M { owner: 1 },
    },
    Row {
        blade: 0,
        page: 2,
        write: false,
        read: Some(2),
        base: 2,
        state: State::S { sharers: 1 },
    },
    // a write to a page that may be read, and a read of one that is not mapped, are denied
    Row {
        blade: 0,
        page: 2,
        write: true,
        read: None,
        base: 0,
        state: State::I,
    },
    Row {
        blade: 1,
        page: 3,
        write: false,
        read: None,
        base: 0,
        state: State::I,
    },
];

fn page_of(number: u32) -> Page {
    Page {
        domain: 0,
        number: number % 1024,
    }
}

/// Whether the one message is the reading of the page for the blade, or the denial of it.
fn is_answer(row: &Row, link: LinkName, msg: &Msg) -> bool {
    match msg {
        Msg::Read { phys, blade, page } => {
            link.kind == LinkKind::To
                && link.number == 1
                && row.read == Some(*phys)
                && *blade == Some(row.blade)
                && *page == page_of(row.page)
        }
        Msg::Deny { page } => {
            link.kind == LinkKind::Down
                && link.number == row.blade
                && row.read.is_none()
                && *page == page_of(row.page)
        }
        _ => false,
    }
}

/// Whether the notes are those of a new entry and its state, or none where the request is denied.
fn is_noted(row: &Row, deeds: &Deeds) -> bool {
    if row.read.is_none() {
        return deeds.notes(&[]);
    }
    let range = Range {
        domain: 0,
        base: row.base % 1024 / 2 * 2,
        log: 1,
    };
    deeds.notes(&[
        Note::Region {
            range,
            state: State::I,
        },
        Note::Region {
            range,
            state: row.state,
        },
    ])
}

/// Whether a new switch does what the row says.
fn holds(alloc: Global, row: &Row) -> Result<bool, Fail> {
    let mut switch = new_switch(alloc)?;
    let msg = Msg::Get {
        page: page_of(row.page),
        write: row.write,
    };
    let was_quiet = switch.quiet();
    let Some(deeds) = received(alloc, &mut switch, up(row.blade), msg)? else {
        return Ok(false);
    };
    let answered = match deeds.out.as_slice() {
        [(link, msg)] => is_answer(row, *link, msg),
        _ => false,
    };
    Ok(was_quiet && answered && is_noted(row, &deeds) && switch.quiet() == row.read.is_none())
}

#[test]
fn a_new_switch_reads_a_page_or_denies_it(rt: HostRuntime) -> Result<(), Fail> {
    for row in &ROWS {
        assert!(rt; holds(rt.alloc(), row)?);
    }
    Ok(())
}

/// A page of domain 0 that a blade gives back, and where its image goes: the memory blade, and the physical
/// number there.
#[derive(Clone, Copy)]
struct Back {
    blade: u8,
    page: u32,
    memory: u8,
    phys: u32,
}

static BACKS: [Back; 4] = [
    Back {
        blade: 0,
        page: 1,
        memory: 1,
        phys: 1,
    },
    Back {
        blade: 1,
        page: 15,
        memory: 1,
        phys: 15,
    },
    // the homes of memory blade 0 begin with page 16, as its page 0
    Back {
        blade: 1,
        page: 16,
        memory: 0,
        phys: 0,
    },
    Back {
        blade: 0,
        page: 19,
        memory: 0,
        phys: 3,
    },
];

/// Whether the message writes the page where the row says.
fn is_written(row: &Back, link: LinkName, msg: &Msg) -> bool {
    match msg {
        Msg::Write { phys, .. } => {
            link.kind == LinkKind::To && link.number == row.memory && *phys == row.phys
        }
        _ => false,
    }
}

/// Whether a new switch writes the page that comes back, and does nothing else.
fn goes_back(alloc: Global, row: &Back) -> Result<bool, Fail> {
    let mut switch = new_switch(alloc)?;
    let msg = Msg::Back {
        page: page_of(row.page),
        image: PageImage::zero(alloc)?,
    };
    let Some(deeds) = received(alloc, &mut switch, up(row.blade), msg)? else {
        return Ok(false);
    };
    let written = match deeds.out.as_slice() {
        [(link, msg)] => is_written(row, *link, msg),
        _ => false,
    };
    Ok(written && deeds.notes(&[]) && switch.quiet())
}

#[test]
fn a_page_that_comes_back_is_written_where_it_lies(rt: HostRuntime) -> Result<(), Fail> {
    for row in &BACKS {
        assert!(rt; goes_back(rt.alloc(), row)?);
    }
    Ok(())
}
