//! Requests that come, are fetched and are done: a test on the public calls of `request_list`. The crate has tests
//! alone.
#![tactic(auto)]

#[cfg(test)]
mod tests;
