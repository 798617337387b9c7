//! How far the command under way is.

use mind_base::Command;

/// A command that was asked for, with the index that tells it from all others.
#[derive(Clone, Copy, Debug, PartialEq, Eq)]
pub struct Asked {
    pub index: u32,
    pub command: Command,
}

/// How far the command under way has come, with its index and its number: none is under way, the
/// blades that have not answered yet (a bit for each blade) are still to close its pages, or all have
/// closed them and it is being applied.
#[derive(Clone, Copy, Debug, PartialEq, Eq)]
pub enum Phase {
    Free,
    Closing {
        index: u32,
        number: u32,
        waiting: u8,
    },
    Applying {
        index: u32,
        number: u32,
    },
}
