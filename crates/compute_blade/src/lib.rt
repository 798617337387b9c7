//! A compute blade: its harts, the pages that it holds, and what it asks of the switch and answers it.
#![tactic(auto)]

mod blades;
mod denials;
mod frames;
mod harts;
mod kept;
mod laws;
mod needs;
mod requests;

pub use blades::ComputeBlade;
pub use kept::{Asked, Reservation, Waits};
pub use laws::calls_are_actions;
