//! The abstract machine: total store order over one flat memory for each domain, step by step.
#![tactic(auto)]

mod buffers;
mod changes;
mod command_queues;
mod deeds;
mod harts;
mod labels;
mod laws_of_rows;
mod machines;
mod surroundings;

pub use labels::{Label, Replay, label_in};
pub use laws_of_rows::a_command_waits_for_the_drains_before_it;
pub use machines::Machine;
