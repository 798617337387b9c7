//! Pieces of text that several formats share: decimal numbers, lines, blanks, and how a reading of lines is answered.
#![tactic(auto)]

mod blanks;
mod decimals;
mod lines;
mod refusals;

pub use blanks::{blanks_at_front, first_blank, is_blank, is_text};
pub use decimals::put_decimal;
pub use lines::{place_of, split_line};
pub use refusals::LineRefusal;
