//! The policy that judges the load of an entry: a threshold, or a closure.

ghost use Rattle.std.specs.Prelude.{◌≡◌, ◌≤◌};
ghost use Rattle.bounded_split.specs.Verdict.{verdict_of};
ghost use Rattle.bounded_split.specs.Policy.{JudgesLoads};

use crate::{Load, Verdict};

/// A closure that judges the load of an entry.
pub type Judge = Box<dyn Fn(Load) -> Verdict>;

/// A policy of splitting and merging: a closure that judges entries, beside the fact that it answers as
/// the threshold policy does.
#[derive(Drop)]
pub struct Policy {
    threshold: u32,
    judge: Judge,
    ghost judges: { JudgesLoads (Judge.pre judge) (Judge.post judge) threshold },
}

impl Policy {
    /// The policy with this threshold and closure.
    pub fn new(threshold: u32, judge: Judge) -> Policy
        requires { JudgesLoads (Judge.pre judge) (Judge.post judge) threshold }
        ensures { result.threshold ≡ threshold }
    {
        Policy { threshold, judge }
    }

    /// The policy's verdict on an entry with this load.
    pub fn verdict(&self, load: Load) -> Verdict
        requires { load.log ≤ 9 }
        ensures { result ≡ verdict_of self.now.threshold load }
    {
        (self.judge)(load)
    }
}
