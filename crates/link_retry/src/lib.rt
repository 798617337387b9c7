//! One link of the rack: a sender that keeps what it sent until it is acknowledged, a receiver that
//! takes messages in the order of their numbers, and two wires between them on which frames may be
//! lost, repeated and delivered in any order.
#![tactic(auto)]

mod laws;
mod links;
mod windows;
mod wires;

pub use laws::in_order;
pub use links::Link;
pub use windows::Window;
