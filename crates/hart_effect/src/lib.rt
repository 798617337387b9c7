//! What one instruction does to its hart and to one store's bytes of memory, given the bytes and the
//! permissions around it; and what a hart comes upon at its pc.
#![tactic(auto)]

mod accesses;
mod cores;
mod finds;
mod instructions;
mod surroundings;
mod waits;
mod works;

pub use accesses::{Access, AccessKind};
pub use cores::Core;
pub use finds::{Found, find};
pub use instructions::Here;
pub use surroundings::Surroundings;
pub use waits::drains_first;
pub use works::{AccessEffect, Change, Continued, Work};
