//! Whole calls of the program over files in memory: what is written, how the call ends, and in which order
//! it reads. The crate has tests alone.
#![tactic(auto)]

#[cfg(test)]
mod tests;
