//! The form `make`: a schedule is made for a rack.

ghost use Rattle.std.specs.Prelude.{◌≡◌, ◌≤◌, ℕ, List, [], None};
ghost use Rattle.mind_base.specs.Fit.{IsFit};
ghost use Rattle.mind_base.specs.declared.notes.Note.{Note};
ghost use Rattle.rack_gen.specs.Generator.{generated_text};
ghost use Rattle.mind_top.specs.Words.{Make};
ghost use Rattle.mind_top.specs.Ending.{KeepsOutside, StaysUnlessReadFault, WritesOnce, counts};
ghost use Rattle.mind_top.specs.Left.{Left};
ghost use Rattle.mind_top.specs.Parts.{SaysLine, Answers};

use crate::Status;
use crate::texts::{say, stop};
use mind_base::{NoMemory, RackPlan, Sink, Store};
use mind_inputs::load_rack;
use rack_gen::make;
use std::alloc::Global;

/// Writes the schedule that the generator makes for a rack.
fn say_schedule<K: Sink>(
    alloc: Global,
    plan: &RackPlan,
    count: u32,
    seed: u32,
    sink: &mut K,
) -> Status
    requires fit { IsFit plan.now }
    requires few { count ≤ 200000 }
    ensures says { SaysLine (K.written sink.old) (K.written sink.new) (K.faults sink.old) (K.faults sink.new) (generated_text plan.now count seed) Status.Done result }
    ensures once { WritesOnce (K.writes sink.old) (K.writes sink.new) result }
    ensures failed { K.faults sink.old ≤ K.faults sink.new }
{
    match make(alloc, plan, count, seed) {
        Ok(text) => say(sink, text.as_slice(), Status::Done),
        Err(NoMemory) => Status::NoMemory,
    }
}

/// Reads and judges the rack of this name, and writes a schedule for it. Nothing is left of it.
pub fn answer_make<S: Store, K: Sink>(
    alloc: Global,
    rack: &str,
    count: u32,
    seed: u32,
    store: &mut S,
    sink: &mut K,
) -> Status
    requires few { count ≤ 200000 }
    ensures outside { KeepsOutside (S.holds store.old) (S.holds store.new)
        (counts (S.faults store.old) (S.missed store.old) (K.faults sink.old)) (counts (S.faults store.new) (S.missed store.new) (K.faults sink.new)) }
    ensures steady { StaysUnlessReadFault (S.faults store.old) (S.faults store.new) (S.missed store.old) (S.missed store.new) result }
    ensures once { WritesOnce (K.writes sink.old) (K.writes sink.new) result }
    ensures answers { Answers (S.holds store.old) (Make rack.now count seed) (record { log = []; end = None })
        (counts (S.faults store.old) (S.missed store.old) (K.faults sink.old)) (counts (S.faults store.new) (S.missed store.new) (K.faults sink.new))
        (K.written sink.old) (K.written sink.new) result }
{
    match load_rack(alloc, store, rack) {
        Ok(plan) => say_schedule(alloc, &plan, count, seed, sink),
        Err(stopped) => stop(alloc, &stopped, sink),
    }
}
