//! Schedules that a generator of numbers makes: their events, and their text.
#![tactic(auto)]

mod draws;
mod lines;
mod schedules;
mod wires;

pub use schedules::{generated, make};

#[cfg(test)]
mod tests;
