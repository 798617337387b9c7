//! A full queue: a test on the public calls of `store_queue`. The crate has tests alone.
#![tactic(auto)]

#[cfg(test)]
mod tests;
