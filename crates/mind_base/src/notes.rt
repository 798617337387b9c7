//! The states of a directory entry, and the notes of a log.

use crate::{Outcome, Page, Range};

/// What a directory entry says of its block: nobody holds a page of it, these blades may hold some to
/// read (a bit for each blade), or this one blade owns it.
#[derive(Clone, Copy, Debug, PartialEq, Eq)]
pub enum State {
    I,
    S { sharers: u8 },
    M { owner: u8 },
}

/// One note of a log: an event of the schedule by its number from 0, a step or drain that took effect,
/// a command that was decided or moved pages, and what blades and directory did.
#[derive(Clone, Copy, Debug, PartialEq, Eq)]
pub enum Note {
    Event {
        index: u32,
    },
    Exec {
        hart: u8,
    },
    Drain {
        hart: u8,
    },
    Command {
        index: u32,
    },
    Moved {
        index: u32,
        outcome: Outcome,
    },
    Take {
        blade: u8,
        page: Page,
        writable: bool,
    },
    Give {
        blade: u8,
        page: Page,
    },
    Down {
        blade: u8,
        page: Page,
    },
    Region {
        range: Range,
        state: State,
    },
    Gone {
        range: Range,
    },
    Split {
        range: Range,
    },
    Merge {
        range: Range,
    },
}

const _: () = prove!(size_of::<Note>() <= 16);
