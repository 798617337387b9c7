//! Where the pages of a rack lie: at their homes, or where the smallest moved block that has them says.
#![tactic(auto)]

mod blocks;
mod homes;
mod laws;
mod outliers;
mod pieces;
mod search;
mod tables;

pub use homes::pages_of;
pub use laws::smallest_outlier_decides;
pub use outliers::{Outlier, Piece, PutRefusal};
pub use tables::Table;
