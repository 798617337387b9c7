//! Messages on the links of a small rack: a test on the public calls of `rack_net`. The crate has tests alone.
#![tactic(auto)]

#[cfg(test)]
mod tests;
