//! What is answered to texts and images: rows of tests on the public calls of `rv32_text`. The crate has tests alone.
#![tactic(auto)]

#[cfg(test)]
mod tests;
