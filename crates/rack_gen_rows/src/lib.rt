//! A schedule that is made for a rack, written by hand: a test on the public calls of `rack_gen`. The crate has
//! tests alone.
#![tactic(auto)]

#[cfg(test)]
mod tests;
