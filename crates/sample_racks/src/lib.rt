//! Racks for tests: a rack file, the plan of one, and its images.
#![tactic(auto)]

mod plans;

pub use plans::{BASE, images_in, plan_in};
