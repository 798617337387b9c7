//! Whole runs of the program, with the reports that are expected: loads, stores and locked operations, and
//! the litmus tests of total store order under `examples/litmus`. The crate has tests alone.
#![tactic(auto)]

#[cfg(test)]
mod tests;
