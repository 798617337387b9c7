//! Epochs over small directories: tests on the public calls of `bounded_split`. The crate has tests alone.
#![tactic(auto)]

#[cfg(test)]
mod tests;
