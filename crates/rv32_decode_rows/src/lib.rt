//! Words and the instructions that they spell: rows of tests on the public calls of `rv32_decode`. The crate has
//! tests alone.
#![tactic(auto)]

#[cfg(test)]
mod tests;
