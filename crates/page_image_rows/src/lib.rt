//! Images stored to, and spelled and read again: tests on the public calls of `page_image`. The crate has tests
//! alone.
#![tactic(auto)]

#[cfg(test)]
mod tests;
