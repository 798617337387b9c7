//! The text of a schedule: lines of words, read as the events that they stand for.
#![tactic(auto)]

mod arguments;
mod asked;
mod entries;
mod fates;
mod faults;
mod keywords;
mod links;
mod rounds;
mod schedules;
mod sizes;
mod words;

pub use asked::commands_of;
pub use fates::{Fate, befalls};
pub use faults::LineFault;
pub use plain_text::LineRefusal;
pub use schedules::schedule_of;
