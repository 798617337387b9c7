//! Where pages lie under outliers: tests on the public calls of `range_translate`. The crate has tests alone.
#![tactic(auto)]

#[cfg(test)]
mod tests;
