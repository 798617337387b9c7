//! What is answered to rack files and images: rows of tests on the public calls of `rack_file`. The crate has
//! tests alone.
#![tactic(auto)]

#[cfg(test)]
mod tests;
