//! The messages of the rack's nodes, and the one way in which each is spelled in bytes.
#![tactic(auto)]

mod granules;
mod laws;
mod msgs;
mod reading;
mod refusals;
mod writing;

pub use laws::no_spelling_begins_another;
pub use msgs::Msg;
pub use reading::decode;
pub use refusals::WireRefusal;
pub use writing::encode;
