//! Rack files and images: what is accepted, and the first thing that is wrong with the rest.
#![tactic(auto)]

mod arrays;
mod homes;
mod images;
mod keys;
mod maps;
mod placing;
mod racks;
mod refusals;
mod sections;
mod settings;
mod tables;

pub use images::{ImageFault, image_of};
pub use racks::rack_of;
pub use refusals::{Path, RackFault, RackRefusal};
