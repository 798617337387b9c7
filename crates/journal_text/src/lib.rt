//! The journal of a run: a log written as text, one line for each note, and read back.
#![tactic(auto)]

mod fields;
mod laws;
mod lines;
mod notes;
mod parts;
mod reading;
mod refusals;
mod writing;

pub use laws::one_judgement;
pub use reading::journal_of;
pub use refusals::{JournalFault, JournalRefusal};
pub use writing::journal;
