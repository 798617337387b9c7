//! The nodes of a rack that starts.

ghost use Rattle.std.specs.Prelude.{◌≡◌, All, IfOk, length, map};
ghost use Rattle.std.specs.List.{AllByRecursion, range_with_len};
ghost use Rattle.mind_base.specs.Fit.{IsFit, IsFitMemory, AreApart, all_homes};
ghost use Rattle.compute_blade.specs.Blade.{IsBlade};
ghost use Rattle.compute_blade.specs.Start.{first_blade};
ghost use Rattle.rack_core.specs.Start.{first_memory};

use compute_blade::ComputeBlade;
use memory_blade::MemoryBlade;
use mind_base::{MemoryPlan, NoMemory, RackPlan};
use range_translate::pages_of;
use std::alloc::Global;

/// The compute blades of a plan, each with its number.
pub(crate) fn start_blades(alloc: Global, plan: &RackPlan) -> Result<Vec<ComputeBlade>, NoMemory>
    requires { IsFit plan.now }
    ensures first { IfOk result (λ blades. blades.items ≡ map (first_blade plan.now) (range_with_len 0 (length plan.now.frames))) }
    ensures shape { IfOk result (λ blades. All IsBlade blades.items) }
{
    let mut blades = Vec::new(alloc);
    for number in 0..plan.frames.len() as u8 {
        blades.push(ComputeBlade::new(alloc, plan, number)?)?;
    }
    Ok(blades)
}

/// A memory blade with an image for each of its home pages and spare pages.
fn start_memory(alloc: Global, memory: &MemoryPlan) -> Result<MemoryBlade, NoMemory>
    requires fit { IsFitMemory memory.now }
    requires apart { AreApart memory.now.homes }
    ensures { IfOk result (λ blade. blade ≡ first_memory memory.now) }
{
    MemoryBlade::new(alloc, pages_of(memory.homes.as_slice()) + memory.spare)
}

/// The memory blades of a plan.
pub(crate) fn start_memories(
    alloc: Global,
    memories: &[MemoryPlan],
) -> Result<Vec<MemoryBlade>, NoMemory>
    requires fit { AllByRecursion IsFitMemory memories.now }
    requires apart { AreApart (all_homes memories.now) }
    ensures { IfOk result (λ blades. blades.items ≡ map first_memory memories.now) }
{
    let mut blades = Vec::new(alloc);
    for memory in memories {
        blades.push(start_memory(alloc, memory)?)?;
    }
    Ok(blades)
}
