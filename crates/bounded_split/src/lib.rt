//! What an epoch does to the directory: a policy judges each entry, cold neighbours become one, and
//! entries with too many hits become two.
#![tactic(auto)]

mod epochs;
mod laws;
mod loads;
mod merges;
mod policies;
mod splits;

pub use epochs::{EpochSums, epoch};
pub use laws::an_epoch_goes_step_by_step;
pub use loads::{Load, Verdict};
pub use policies::{Judge, Policy};
