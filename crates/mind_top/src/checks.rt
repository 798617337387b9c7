//! The form `check`: a journal is replayed, and its report is written.

ghost use Rattle.std.specs.Prelude.{◌≡◌, ◌≤◌, ℕ, List, [], None};
ghost use Rattle.mind_base.specs.Fit.{IsFit, FitImages};
ghost use Rattle.mind_base.specs.declared.notes.Note.{Note};
ghost use Rattle.mind_inputs.specs.Words.{Paths};
ghost use Rattle.mind_inputs.specs.Journals.{Checkable};
ghost use Rattle.mind_top.specs.Words.{Check};
ghost use Rattle.mind_top.specs.Ending.{KeepsOutside, StaysUnlessReadFault, WritesOnce, counts};
ghost use Rattle.mind_top.specs.Left.{Left};
ghost use Rattle.mind_top.specs.Parts.{CheckEnds, Answers};

use crate::Status;
use crate::texts::{say, say_stuck, stop};
use mind_base::{Log, NoMemory, Sink, Store};
use mind_inputs::{Loaded, load_for_check};
use mind_steps::{Checked, check};
use std::alloc::Global;

/// Checks the journal of accepted inputs, and writes its report or where it is no run.
fn finish_check<K: Sink>(alloc: Global, loaded: &Loaded, journal: &Log, sink: &mut K) -> Status
    requires fit { IsFit loaded.now.plan }
    requires images { FitImages loaded.now.plan.images loaded.now.images }
    ensures ends { CheckEnds (record { accepted = loaded.now; notes = journal.now.notes }) (K.written sink.old) (K.written sink.new) (K.faults sink.old) (K.faults sink.new) result }
    ensures once { WritesOnce (K.writes sink.old) (K.writes sink.new) result }
    ensures failed { K.faults sink.old ≤ K.faults sink.new }
{
    match check(alloc, &loaded.plan, loaded.images.as_slice(), journal) {
        Ok(Checked::Report { text }) => say(sink, text.as_slice(), Status::Done),
        Ok(Checked::NotARun { label }) => say_stuck(alloc, label, sink),
        Err(NoMemory) => Status::NoMemory,
    }
}

/// Reads and judges the files of these names, and checks the journal. Nothing is left of it.
pub fn answer_check<S: Store, K: Sink>(
    alloc: Global,
    rack: &str,
    schedule: &str,
    journal: &str,
    store: &mut S,
    sink: &mut K,
) -> Status
    ensures outside { KeepsOutside (S.holds store.old) (S.holds store.new)
        (counts (S.faults store.old) (S.missed store.old) (K.faults sink.old)) (counts (S.faults store.new) (S.missed store.new) (K.faults sink.new)) }
    ensures steady { StaysUnlessReadFault (S.faults store.old) (S.faults store.new) (S.missed store.old) (S.missed store.new) result }
    ensures once { WritesOnce (K.writes sink.old) (K.writes sink.new) result }
    ensures answers { Answers (S.holds store.old) (Check (record { rack = rack.now; schedule = schedule.now }) journal.now) (record { log = []; end = None })
        (counts (S.faults store.old) (S.missed store.old) (K.faults sink.old)) (counts (S.faults store.new) (S.missed store.new) (K.faults sink.new))
        (K.written sink.old) (K.written sink.new) result }
{
    match load_for_check(alloc, store, rack, schedule, journal) {
        Ok((loaded, log)) => finish_check(alloc, &loaded, &log, sink),
        Err(stopped) => stop(alloc, &stopped, sink),
    }
}
