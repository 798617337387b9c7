//! The program `mind` over any store of files and any sink of text.
#![tactic(auto)]

mod checks;
mod instructions;
mod laws;
mod makes;
mod runs;
mod statuses;
mod texts;
mod top;
mod words;

pub use laws::{
    settled_schedules_have_one_outcome, the_files_decide, what_is_journalled_is_checked,
    what_is_made_runs_as_it_is_loaded,
};
pub use statuses::Status;
pub use top::mind;
