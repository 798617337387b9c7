//! Entries that come, change, split and merge: tests on the public calls of `region_directory`. The crate has tests
//! alone.
#![tactic(auto)]

#[cfg(test)]
mod tests;
