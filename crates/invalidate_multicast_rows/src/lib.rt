//! Transitions from their beginning to their last answer: tests on the public calls of `invalidate_multicast`. The
//! crate has tests alone.
#![tactic(auto)]

#[cfg(test)]
mod tests;
