//! Whole runs of the program over the network of a rack, each delivery, loss and repeat being a line of the schedule,
//! with the reports and journals that are expected. The crate has tests alone.
#![tactic(auto)]

#[cfg(test)]
mod tests;
