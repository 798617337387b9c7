//! One page that two blades read and write in turn, message by message, on a switch of two compute blades.

ghost use Rattle.std.specs.Prelude.{IfOk};
ghost use Rattle.wire_msg.specs.WellFormed.{FieldsAgree};

use crate::switches::{new_switch, received, up};
use mind_base::{LinkKind, LinkName, NoMemory, Note, Page, Range, State, Stop};
use page_image::PageImage;
use std::alloc::Global;
use std::test::Fail;
use switch_core::SwitchCore;
use wire_msg::Msg;

/// The page, which memory blade 1 keeps as its page 1.
const PAGE: Page = Page {
    domain: 0,
    number: 1,
};

/// The block of its entry.
const BLOCK: Range = Range {
    domain: 0,
    base: 0,
    log: 1,
};

/// A message to the switch: a blade's, or memory blade 1's image for a blade.
#[derive(Clone, Copy)]
enum Step {
    Get { write: bool },
    Image,
    Ack { number: u32, count: u32 },
    Back,
}

/// A message from the switch, about the page and its block.
#[derive(Clone, Copy, Debug, PartialEq, Eq)]
enum Sent {
    Read,
    Fill { writable: bool },
    Inv { number: u32 },
    Lower { number: u32 },
    Write,
    Other,
}

/// A message and its blade, what the switch sends then, each with the blade that it is to or, a reading, for, and
/// the states of the entry that it notes.
#[derive(Clone, Copy)]
struct Row {
    blade: u8,
    step: Step,
    sent: &'static [(u8, Sent)],
    states: &'static [State],
}

static ROWS: [Row; 12] = [
    // blade 0 reads the page
    Row {
        blade: 0,
        step: Step::Get { write: false },
        sent: &[(0, Sent::Read)],
        states: &[State::I, State::S { sharers: 1 }],
    },
    // blade 1 wants to write it, and waits while it is fetched
    Row {
        blade: 1,
        step: Step::Get { write: true },
        sent: &[],
        states: &[],
    },
    // blade 0 gets it, and is then told to give it up
    Row {
        blade: 0,
        step: Step::Image,
        sent: &[
            (0, Sent::Fill { writable: false }),
            (0, Sent::Inv { number: 1 }),
        ],
        states: &[],
    },
    // blade 0 wants it again, and waits for the transition
    Row {
        blade: 0,
        step: Step::Get { write: false },
        sent: &[],
        states: &[],
    },
    // nobody holds it, and so blade 1 owns it
    Row {
        blade: 0,
        step: Step::Ack {
            number: 1,
            count: 0,
        },
        sent: &[(1, Sent::Read)],
        states: &[State::I, State::M { owner: 1 }],
    },
    // blade 1 gets it to write, and is then told to write no longer, since blade 0 waits to read
    Row {
        blade: 1,
        step: Step::Image,
        sent: &[
            (1, Sent::Fill { writable: true }),
            (1, Sent::Lower { number: 2 }),
        ],
        states: &[],
    },
    // what blade 1 wrote goes to where the page lies
    Row {
        blade: 1,
        step: Step::Back,
        sent: &[(1, Sent::Write)],
        states: &[],
    },
    // blade 1 shares it, and so does blade 0
    Row {
        blade: 1,
        step: Step::Ack {
            number: 2,
            count: 0,
        },
        sent: &[(0, Sent::Read)],
        states: &[State::S { sharers: 2 }, State::S { sharers: 3 }],
    },
    Row {
        blade: 0,
        step: Step::Image,
        sent: &[(0, Sent::Fill { writable: false })],
        states: &[],
    },
    // blade 0 writes: blade 1 alone is told to give the page up, and blade 0 stays a sharer meanwhile
    Row {
        blade: 0,
        step: Step::Get { write: true },
        sent: &[(1, Sent::Inv { number: 3 })],
        states: &[],
    },
    Row {
        blade: 1,
        step: Step::Ack {
            number: 3,
            count: 1,
        },
        sent: &[(0, Sent::Read)],
        states: &[State::S { sharers: 1 }, State::M { owner: 0 }],
    },
    Row {
        blade: 0,
        step: Step::Image,
        sent: &[(0, Sent::Fill { writable: true })],
        states: &[],
    },
];

/// The link that the row's message comes on.
fn link_of(row: &Row) -> LinkName {
    match row.step {
        Step::Get { .. } | Step::Ack { .. } | Step::Back => up(row.blade),
        Step::Image => LinkName {
            kind: LinkKind::From,
            number: 1,
        },
    }
}

fn message_of(alloc: Global, row: &Row) -> Result<Msg, NoMemory>
    ensures { IfOk result (λ msg. FieldsAgree msg) }
{
    let image = PageImage::zero(alloc)?;
    Ok(match row.step {
        Step::Get { write } => Msg::Get { page: PAGE, write },
        Step::Image => Msg::Image {
            blade: Some(row.blade % 8),
            page: PAGE,
            image,
        },
        Step::Ack { number, count } => Msg::Ack { number, count },
        Step::Back => Msg::Back { page: PAGE, image },
    })
}

/// The blade that the message on this link is to or, a reading, for, and what it says, if that is about the page
/// or its block.
fn sent_on(link: LinkName, msg: &Msg) -> (u8, Sent) {
    match msg {
        Msg::Read {
            phys: 1,
            blade: Some(blade),
            ..
        } if link.kind == LinkKind::To && link.number == 1 => (*blade, Sent::Read),
        _ => (link.number, told_by(msg)),
    }
}

/// What a message that is no reading says.
fn told_by(msg: &Msg) -> Sent {
    match msg {
        Msg::Fill { page, writable, .. } if *page == PAGE => Sent::Fill {
            writable: *writable,
        },
        Msg::Inv { number, range, .. } if *range == BLOCK => Sent::Inv { number: *number },
        Msg::Lower { number, range, .. } if *range == BLOCK => Sent::Lower { number: *number },
        Msg::Write { phys: 1, .. } => Sent::Write,
        _ => Sent::Other,
    }
}

fn are_sent(wanted: &[(u8, Sent)], out: &[(LinkName, Msg)]) -> bool {
    if out.len() != wanted.len() {
        return false;
    }
    for ((link, msg), sent) in out.iter().zip(wanted) {
        if sent_on(*link, msg) != *sent {
            return false;
        }
    }
    true
}

/// The notes of these states of the block.
fn notes_of(alloc: Global, states: &[State]) -> Result<Vec<Note>, NoMemory> {
    let mut notes = Vec::new(alloc);
    for state in states {
        notes.push(Note::Region {
            range: BLOCK,
            state: *state,
        })?;
    }
    Ok(notes)
}

/// Whether the switch does what the row says.
fn holds(alloc: Global, switch: &mut SwitchCore, row: &Row) -> Result<bool, Stop> {
    let msg = message_of(alloc, row)?;
    let Some(deeds) = received(alloc, switch, link_of(row), msg)? else {
        return Ok(false);
    };
    let notes = notes_of(alloc, row.states)?;
    Ok(are_sent(row.sent, deeds.out.as_slice()) && deeds.notes(notes.as_slice()))
}

#[test]
fn two_blades_read_and_write_a_page_in_turn(rt: HostRuntime) -> Result<(), Fail> {
    let mut switch = new_switch(rt.alloc())?;
    for row in &ROWS {
        assert!(rt; holds(rt.alloc(), &mut switch, row)?);
    }
    assert!(rt; switch.quiet());
    Ok(())
}
