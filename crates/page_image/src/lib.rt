//! The image of a page: its 4096 bytes, and a tag for each of its 64 granules of 64 bytes.
#![tactic(auto)]

mod images;
mod tags;

pub use images::PageImage;
