//! How many threads, blades and memory blades a schedule may name.

ghost use Rattle.std.specs.Prelude.{◌≡◌, ◌≤◌, length};
ghost use Rattle.schedule_text.specs.Size.{sizes_of};

use mind_base::RackPlan;

/// How many threads, compute blades and memory blades a rack has.
#[derive(Clone, Copy, Debug, PartialEq, Eq)]
pub struct Sizes {
    pub threads: u8,
    pub blades: u8,
    pub memories: u8,
}

pub fn sizes_in(plan: &RackPlan) -> Sizes
    requires threads { length plan.now.threads ≤ 64 }
    requires blades { length plan.now.frames ≤ 8 }
    requires memories { length plan.now.memories ≤ 8 }
    ensures { result ≡ sizes_of plan.now }
{
    Sizes {
        threads: plan.threads.len() as u8,
        blades: plan.frames.len() as u8,
        memories: plan.memories.len() as u8,
    }
}
