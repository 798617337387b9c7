//! The report of a run: where each thread stands, how each command ended, and what the log counts.
#![tactic(auto)]

mod commands;
mod counts;
mod force;
mod kinds;
mod laws;
mod moves;
mod reports;
mod texts;
mod threads;

pub use laws::what_is_counted_is_in_force;
pub use reports::report;
