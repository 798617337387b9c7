//! Frames that are lost, repeated and come early: tests on the public calls of `link_retry`. The crate has tests
//! alone.
#![tactic(auto)]

#[cfg(test)]
mod tests;
