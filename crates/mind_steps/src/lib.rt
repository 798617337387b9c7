//! Logs of runs on the abstract machine: a journal is checked to be that of a run, and the report of a run is
//! made from its log.
#![tactic(auto)]

mod checking;

pub use checking::{Checked, check, report_of};
