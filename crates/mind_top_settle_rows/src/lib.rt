//! Whole runs of the program whose schedules settle: programs, and racks made at random, with the reports and journals that
//! are expected. The crate has tests alone.
#![tactic(auto)]

#[cfg(test)]
mod tests;
