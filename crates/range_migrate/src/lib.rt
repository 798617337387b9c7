//! Moves of blocks of pages to other memory blades: how each ends, which pages are copied, and where they lie afterwards.
#![tactic(auto)]

mod copies;
mod endings;
mod laws;
mod migrates;
mod moves;
mod plans;
mod questions;
mod runs;

pub use copies::next_copy;
pub use endings::finish;
pub use laws::{accepted_moves_decide, places_are_apart};
pub use migrates::migrate;
pub use moves::{Copy1, Move};
pub use plans::plan;
