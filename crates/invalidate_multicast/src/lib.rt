//! Messages to all blades that hold pages of an entry, and what their answers make of it.
#![tactic(auto)]

mod casts;
mod transitions;

pub use casts::{Cast, is_among, only, targets, with_blade, without};
pub use transitions::{ack, begin, ended};
