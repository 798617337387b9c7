//! How commands end, and how they follow each other: rows of tests on the public calls of `control_plane`. The crate
//! has tests alone.
#![tactic(auto)]

#[cfg(test)]
mod changes;
#[cfg(test)]
mod controls;
