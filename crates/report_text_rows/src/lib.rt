//! Whole reports written by hand: rows of tests on the public call of `report_text`. The crate has tests alone.
#![tactic(auto)]

#[cfg(test)]
mod tests;
