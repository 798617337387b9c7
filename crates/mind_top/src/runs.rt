//! The forms that run a schedule on a rack: `run`, `journal` and `load`.

ghost use Rattle.std.specs.Prelude.{◌≡◌, ◌≤◌, [], length, IfOk};
ghost use Rattle.mind_base.specs.Fit.{IsFit, FitImages};
ghost use Rattle.mind_inputs.specs.Inputs.{IsRunnable};
ghost use Rattle.mind_steps.specs.Run.{events, below, IsWholeRun};
ghost use Rattle.mind_top.specs.Ending.{WritesOnce};
ghost use Rattle.mind_top.specs.Headline.{setup_by, IsTextOf};
ghost use Rattle.mind_top.specs.Left.{Left};
ghost use Rattle.mind_top.specs.Parts.{RunEnds, LoadedEnds};
ghost use Rattle.mind_top.specs.Ran.{RanThrough};

use crate::Status;
use crate::texts::{say, stop};
use crate::words::Output;
use journal_text::journal;
use mind_base::{Log, NoMemory, Sink, Stop};
use mind_inputs::{Loaded, Stopped};
use mind_steps::report_of;
use rack_core::Rack;
use rack_settle::run_all;
use std::alloc::Global;

/// The text of the log of a run that is asked for.
fn text_of(alloc: Global, output: Output, loaded: &Loaded, log: &Log) -> Result<Vec<u8>, NoMemory>
    requires fit { IsFit loaded.now.plan }
    requires images { FitImages loaded.now.plan.images loaded.now.images }
    requires run { IsWholeRun (setup_by loaded.now) log.now.notes }
    ensures { IfOk result (λ text. IsTextOf output loaded.now log.now.notes text.items) }
{
    match output {
        Output::Report => report_of(alloc, &loaded.plan, loaded.images.as_slice(), log),
        Output::Journal => journal(alloc, log),
    }
}

/// Ends a run that went through all its events: what is asked for is written, and its rack is left.
fn finish<K: Sink>(
    alloc: Global,
    output: Output,
    loaded: &Loaded,
    rack: Rack,
    sink: &mut K,
    log: &Log,
) -> (Status, Option<Rack>)
    requires fit { IsFit loaded.now.plan }
    requires images { FitImages loaded.now.plan.images loaded.now.images }
    requires ran { RanThrough loaded.now log.now.notes rack }
    requires events { events log.now.notes ≡ below (length loaded.now.events) }
    ensures ends { RunEnds output loaded.now (record { log = log.now.notes; end = result.1 }) (K.written sink.old) (K.written sink.new) (K.faults sink.old) (K.faults sink.new) result.0 }
    ensures once { WritesOnce (K.writes sink.old) (K.writes sink.new) result.0 }
    ensures failed { K.faults sink.old ≤ K.faults sink.new }
{
    match text_of(alloc, output, loaded, log) {
        Ok(text) => (say(sink, text.as_slice(), Status::Done), Some(rack)),
        Err(NoMemory) => (Status::NoMemory, None),
    }
}

/// Runs accepted inputs on a rack from its start, writes what is asked for, and leaves the rack.
pub fn run<K: Sink>(
    alloc: Global,
    output: Output,
    loaded: &Loaded,
    sink: &mut K,
    log: &mut Log,
) -> (Status, Option<Rack>)
    requires runnable { IsRunnable loaded.now }
    requires empty { log.old.notes ≡ [] }
    ensures ends { RunEnds output loaded.now (record { log = log.new.notes; end = result.1 }) (K.written sink.old) (K.written sink.new) (K.faults sink.old) (K.faults sink.new) result.0 }
    ensures once { WritesOnce (K.writes sink.old) (K.writes sink.new) result.0 }
    ensures failed { K.faults sink.old ≤ K.faults sink.new }
{
    let mut rack = match Rack::start(alloc, &loaded.plan) {
        Ok(rack) => rack,
        Err(NoMemory) => return (Status::NoMemory, None),
    };
    let images = loaded.images.as_slice();
    match run_all(alloc, images, loaded.events.as_slice(), &mut rack, log) {
        Ok(()) => finish(alloc, output, loaded, rack, sink, log),
        Err(Stop::Spent) => (Status::Spent, Some(rack)),
        Err(Stop::NoMemory) => (Status::NoMemory, None),
    }
}

/// Runs what was brought and writes what is asked for; else writes why it was not brought, and nothing is left.
pub fn run_loaded<K: Sink>(
    alloc: Global,
    output: Output,
    loaded: Result<Loaded, Stopped>,
    sink: &mut K,
    log: &mut Log,
) -> (Status, Option<Rack>)
    requires runnable { IfOk loaded (λ inputs. IsRunnable inputs) }
    requires empty { log.old.notes ≡ [] }
    ensures ends { LoadedEnds output (record { log = log.new.notes; end = result.1 }) (K.written sink.old) (K.written sink.new) (K.faults sink.old) (K.faults sink.new) result.0 loaded }
    ensures once { WritesOnce (K.writes sink.old) (K.writes sink.new) result.0 }
    ensures failed { K.faults sink.old ≤ K.faults sink.new }
{
    match &loaded {
        Ok(loaded) => run(alloc, output, loaded, sink, log),
        Err(stopped) => (stop(alloc, stopped, sink), None),
    }
}
