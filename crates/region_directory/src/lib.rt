//! The directory of the switch: which blocks of pages have an entry, in what state each is, and how
//! a full directory makes room.
#![tactic(auto)]

mod blocks;
mod changes;
mod directories;
mod entries;
mod laws;
mod merges;
mod rooms;
mod searches;
mod sides;
mod splits;
mod step_counts;

pub use directories::Directory;
pub use entries::{Busy, Entry};
pub use laws::pairs_merge_before_anything_waits;
pub use rooms::{Room, has_any};
pub use sides::Where;
pub use step_counts::Steps;
