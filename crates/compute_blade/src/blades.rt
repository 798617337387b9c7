//! A compute blade: its harts, its page cache and its requests, as it starts.

ghost use Rattle.std.specs.Prelude.{◌≡◌, ◌<◌, ◌≤◌, [], ◌↔◌, map, length, slice_get, Some, None, option_map, IfOk, IfSome, IsSome, IsTrue};
ghost use Rattle.std.specs.Option.{option_copied};
ghost use Rattle.mind_base.specs.Fit.{IsFit, IsFitThread};
ghost use Rattle.compute_blade.specs.Blade.{IsBlade, hart_of};
ghost use Rattle.compute_blade.specs.Harts.{IsMover};
ghost use Rattle.compute_blade.specs.Start.{first_blade, hart_for};

mod answers;
mod messages;
mod pages;
mod steps;

use crate::Asked;
use crate::harts::Hart;
use crate::kept::Mover;
use mind_base::{Image, NoMemory, RackPlan, ThreadPlan, image_place};
use page_cache::PageCache;
use std::alloc::Global;
use std::marker::Model;

/// A compute blade: the rack's plan and the blade's number in it; its harts by their numbers in the plan,
/// where those of other blades have none; the pages that it holds; and its requests for pages that the
/// switch has not answered, the oldest first.
#[derive(Drop)]
pub struct ComputeBlade {
    plan: RackPlan,
    number: u8,
    harts: Vec<Option<Hart>>,
    cache: PageCache,
    requests: Vec<Asked>,
}

impl Model for ComputeBlade {
    ghost use Rattle.compute_blade.specs.Blade.{BladeView, IsBlade};

    ghost Value = { BladeView };

    ghost view = { λ b. record { plan = b.plan; number = b.number; harts = b.harts.items; cache = b.cache; requests = b.requests.items } };

    ghost invariant = { λ b. IsBlade (record { plan = b.plan; number = b.number; harts = b.harts.items; cache = b.cache; requests = b.requests.items }) };
}

impl ComputeBlade {
    /// Blade number `number` of a rack that starts: its harts at their images, no page held.
    pub fn new(alloc: Global, plan: &RackPlan, number: u8) -> Result<ComputeBlade, NoMemory>
        requires fit { IsFit plan.now }
        requires number { number < length plan.now.frames }
        ensures first { IfOk result (λ blade. blade ≡ first_blade plan.now number) }
        ensures shape { IfOk result IsBlade }
    {
        let frames = plan.frames.as_slice()[usize::from(number)];
        let harts = start_harts(alloc, plan, number)?;
        let cache = PageCache::new(alloc, frames)?;
        let plan = plan.copy(alloc)?;
        Ok(ComputeBlade {
            plan,
            number,
            harts,
            cache,
            requests: Vec::new(alloc),
        })
    }

    /// Whether the blade waits for no page: no request of it is out.
    pub fn quiet(&self) -> bool
        ensures quiet { IsTrue result ↔ (self.now.requests ≡ []) }
        ensures shape { IsBlade self.now }
    {
        self.requests.is_empty()
    }

    /// Hart `hart` of the plan, as one that is to move.
    fn mover(&self, hart: u8) -> Option<Mover>
        ensures hart { IfSome result (λ mover. mover.hart ≡ hart) }
        ensures mover { IfSome result IsMover }
        ensures plan { option_map (λ mover. mover.plan) result ≡ slice_get self.now.plan.threads hart }
        ensures own { IsSome (hart_of self.now hart) → IsSome result }
        ensures shape { IsBlade self.now }
        ensures fit { IfSome result (λ mover. IsFitThread (length self.now.plan.frames) (length self.now.plan.images) mover.plan) }
    {
        let threads = self.plan.threads.as_slice();
        let plan = *threads.get(usize::from(hart))?;
        Some(Mover { hart, plan })
    }

    fn hart(&self, hart: u8) -> Option<&Hart>
        ensures hart { option_copied result ≡ hart_of self.now hart }
        ensures shape { IsBlade self.now }
    {
        match self.harts.get(usize::from(hart)) {
            Some(Some(hart)) => Some(hart),
            _ => None,
        }
    }
}

/// Image number `i`.
fn image_for(images: &[Image], i: u8) -> Option<&Image>
    ensures { option_copied result ≡ slice_get images.now i }
{
    images.get(usize::from(i))
}

fn start_hart(
    alloc: Global,
    plan: &RackPlan,
    number: u8,
    thread: &ThreadPlan,
) -> Result<Option<Hart>, NoMemory>
    requires some { 0 < thread.now.queue }
    requires most { thread.now.queue ≤ 64 }
    ensures { IfOk result (λ hart. hart ≡ hart_for plan.now number thread.now) }
{
    if thread.blade != number {
        return Ok(None);
    }
    let pc = image_place(plan.images.as_slice(), thread.image);
    let hart = Hart::new(alloc, pc, thread.queue)?;
    Ok(Some(hart))
}

fn start_harts(alloc: Global, plan: &RackPlan, number: u8) -> Result<Vec<Option<Hart>>, NoMemory>
    requires { IsFit plan.now }
    ensures { IfOk result (λ harts. harts.items ≡ map (hart_for plan.now number) plan.now.threads) }
{
    let mut harts = Vec::new(alloc);
    for thread in plan.threads.as_slice() {
        harts.push(start_hart(alloc, plan, number, thread)?)?;
    }
    Ok(harts)
}
