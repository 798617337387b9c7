//! The inputs of a run: a rack, its images, a schedule and a journal, read and judged one after another.
#![tactic(auto)]

mod journals;
mod laws;
mod loaded;
mod loading;
mod refusals;
mod stopped;
mod texts;

pub use journals::{load_for_check, load_journal};
pub use laws::{a_made_schedule_is_judged_as_it_is_made, the_files_are_judged_one_way};
pub use loaded::Loaded;
pub use loading::{load, load_made, load_rack};
pub use refusals::Refusal;
pub use stopped::Stopped;
pub use texts::{load_text, load_words};
