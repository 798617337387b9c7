//! Permissions that are set and refused, and the first pages with one: tests on the public calls of `protect_table`.
//! The crate has tests alone.
#![tactic(auto)]

#[cfg(test)]
mod tests;
