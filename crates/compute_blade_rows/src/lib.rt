//! What a compute blade sends and notes as its harts step and drain and as messages come: rows of tests on
//! its public calls. The crate has tests alone.
#![tactic(auto)]

#[cfg(test)]
mod tests;
