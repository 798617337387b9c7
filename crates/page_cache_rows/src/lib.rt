//! Pages that come, are written, pushed out and taken: tests on the public calls of `page_cache`. The crate has
//! tests alone.
#![tactic(auto)]

#[cfg(test)]
mod tests;
