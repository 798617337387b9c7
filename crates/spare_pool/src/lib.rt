//! The spare pages of one memory blade: which are free, and the lowest free run of a size.
#![tactic(auto)]

mod pools;
mod runs;

pub use pools::Pool;
