//! Stores and zeroed spans, read back: rows of tests on the public calls of `flat_memory`. The crate has tests
//! alone.
#![tactic(auto)]

#[cfg(test)]
mod tests;
