//! Moves one after another: a test on the public calls of `range_migrate`. The crate has tests alone.
#![tactic(auto)]

#[cfg(test)]
mod tests;
