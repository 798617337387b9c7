//! The queue in which a thread's stores wait, the oldest first, until they reach memory.
#![tactic(auto)]

mod queues;

pub use mind_base::Pending;
pub use queues::StoreQueue;
