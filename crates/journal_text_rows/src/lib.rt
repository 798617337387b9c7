//! Journals written and read: rows of tests on the public calls of `journal_text`. The crate has tests alone.
#![tactic(auto)]

#[cfg(test)]
mod tests;
