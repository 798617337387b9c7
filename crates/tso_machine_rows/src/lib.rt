//! Commands among the steps of two threads: rows of tests on the public calls of `tso_machine`. The crate has
//! tests alone.
#![tactic(auto)]

#[cfg(test)]
mod tests;
