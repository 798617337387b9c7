//! A flat memory of bytes for each domain, of which only the written pages are kept.
#![tactic(auto)]

mod domains;
mod kept_pages;
mod memories;

pub use memories::FlatMemory;
