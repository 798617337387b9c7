//! Runs that are taken and given back: a test on the public calls of `spare_pool`. The crate has tests alone.
#![tactic(auto)]

#[cfg(test)]
mod tests;
