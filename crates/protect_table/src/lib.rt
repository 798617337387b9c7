//! What a domain may do with each page, in as many blocks as the table has slots.
#![tactic(auto)]

mod blocks;
mod protects;

pub use protects::{Protect, SetRefusal};
