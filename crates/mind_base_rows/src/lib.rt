//! What no contract says of the plain types, and real files and real output: tests on the public calls of
//! `mind_base`. The crate has tests alone.
#![tactic(auto)]

#[cfg(test)]
mod tests;
