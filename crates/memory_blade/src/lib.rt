//! A memory blade: the images of its pages, and what it does with a message from the switch.
#![tactic(auto)]

mod blades;
mod zeros;

pub use blades::MemoryBlade;
