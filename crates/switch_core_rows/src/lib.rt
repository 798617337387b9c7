//! What a switch sends and notes: when a blade asks a new switch for a page or gives one back, and while two
//! blades read and write a page in turn. Rows of tests on its public calls; the crate has tests alone.
#![tactic(auto)]

#[cfg(test)]
mod exchanges;
#[cfg(test)]
mod switches;
#[cfg(test)]
mod tests;
