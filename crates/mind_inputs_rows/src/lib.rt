//! The inputs of a check, from files in memory: rows of tests on the public calls of `mind_inputs`. The crate has
//! tests alone.
#![tactic(auto)]

#[cfg(test)]
mod tests;
