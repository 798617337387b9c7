//! An entry of the directory, and its transition.

use mind_base::{Range, State};

/// A transition of an entry that is under way: its number, the blades that have not answered yet (a
/// bit for each blade), the state that comes when all have, and whether it was begun to make room.
#[derive(Clone, Copy, Debug, PartialEq, Eq)]
pub struct Busy {
    pub number: u32,
    pub waiting: u8,
    pub target: State,
    pub for_room: bool,
}

/// An entry of the directory: a block of pages, its state, its transition if one is under way, and
/// how many pages were given up or lowered for others since the hits were last cleared.
#[derive(Clone, Copy, Debug, PartialEq, Eq)]
pub struct Entry {
    pub range: Range,
    pub state: State,
    pub busy: Option<Busy>,
    pub hits: u32,
}
