//! Messages to a memory blade: a test on its public calls. The crate has tests alone.
#![tactic(auto)]

#[cfg(test)]
mod tests;
