//! Texts of schedules, with the events that they are read as or their first fault: rows of tests on the public
//! calls of `schedule_text`. The crate has tests alone.
#![tactic(auto)]

#[cfg(test)]
mod tests;
