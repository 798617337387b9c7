//! The commands that change the permissions of pages or move them: one at a time, and what becomes of each.
#![tactic(auto)]

mod changes;
mod controls;
mod laws;
mod phases;

pub use changes::{apply, decide};
pub use controls::Control;
pub use laws::one_at_a_time_in_order;
pub use phases::{Asked, Phase};
