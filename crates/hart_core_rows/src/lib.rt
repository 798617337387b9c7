//! Worked values of what instructions ask: rows of tests on the public calls of `hart_core`. The crate has tests
//! alone.
#![tactic(auto)]

#[cfg(test)]
mod tests;
