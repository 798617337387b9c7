//! The cache of a compute blade: the pages that it holds, in frames, by their last use.
#![tactic(auto)]

mod caches;
mod frames;

pub use caches::PageCache;
pub use frames::{Frame, Put};
