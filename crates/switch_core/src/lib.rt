//! The switch of the rack: it translates and protects pages, and keeps the blades' caches coherent.
#![tactic(auto)]

mod endings;
mod laws;
mod messages;
mod stands;
mod states;
mod switches;
mod visits;

pub use laws::receiving_is_deeds;
pub use switches::SwitchCore;
