//! All links of a rack, each as a queue of messages that keeps its order: up from and down to each
//! compute blade, to and from each memory blade.
#![tactic(auto)]

mod carried;
mod nets;
mod places;
mod rows;
mod sets;

pub use nets::Net;
