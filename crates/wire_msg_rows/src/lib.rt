//! Messages and their bytes: rows of tests on the public calls of `wire_msg`. The crate has tests alone.
#![tactic(auto)]

#[cfg(test)]
mod tests;
