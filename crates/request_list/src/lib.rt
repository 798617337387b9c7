//! The requests for pages that wait at the switch, in order of arrival, and the pages that are being fetched.
#![tactic(auto)]

mod requests;
mod waiting;

pub use requests::{Request, Requests};
