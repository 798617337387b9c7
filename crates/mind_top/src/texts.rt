//! The one write of a call, and the lines for what was refused.

ghost use Rattle.std.specs.Prelude.{◌≡◌, ◌≤◌, IfOk};
ghost use Rattle.mind_inputs.specs.Refusal.{line_of};
ghost use Rattle.mind_top.specs.Due.{not_a_run_line, IsSaid};
ghost use Rattle.mind_top.specs.Ending.{WritesOnce};
ghost use Rattle.mind_top.specs.Parts.{SaysText, SaysLine, Stops};

use crate::Status;
use mind_base::{NoMemory, Sink};
use mind_inputs::{Refusal, Stopped};
use std::alloc::Global;

/// Writes a text, and answers the status that is due, or that the write failed.
pub fn say<K: Sink>(sink: &mut K, text: &[u8], due: Status) -> Status
    ensures says { SaysText (K.written sink.old) (K.written sink.new) (K.faults sink.old) (K.faults sink.new) text.now due result }
    ensures once { IsSaid due → WritesOnce (K.writes sink.old) (K.writes sink.new) result }
    ensures failed { K.faults sink.old ≤ K.faults sink.new }
{
    match sink.write_all(text) {
        Ok(()) => due,
        Err(_) => Status::WriteFault,
    }
}

/// Writes why an input is refused.
fn refuse<K: Sink>(alloc: Global, refusal: &Refusal, sink: &mut K) -> Status
    ensures says { SaysLine (K.written sink.old) (K.written sink.new) (K.faults sink.old) (K.faults sink.new) (line_of refusal.now) Status.Malformed result }
    ensures once { WritesOnce (K.writes sink.old) (K.writes sink.new) result }
    ensures failed { K.faults sink.old ≤ K.faults sink.new }
{
    match refusal.line(alloc) {
        Ok(line) => say(sink, line.as_slice(), Status::Malformed),
        Err(NoMemory) => Status::NoMemory,
    }
}

/// Ends a call whose inputs were not brought.
pub fn stop<K: Sink>(alloc: Global, stopped: &Stopped, sink: &mut K) -> Status
    ensures stops { Stops (K.written sink.old) (K.written sink.new) (K.faults sink.old) (K.faults sink.new) stopped.now result }
    ensures once { WritesOnce (K.writes sink.old) (K.writes sink.new) result }
    ensures failed { K.faults sink.old ≤ K.faults sink.new }
{
    match stopped {
        Stopped::Refused { refusal } => refuse(alloc, refusal, sink),
        Stopped::ReadFault => Status::ReadFault,
        Stopped::NoMemory => Status::NoMemory,
    }
}

fn stuck_line(alloc: Global, label: usize) -> Result<Vec<u8>, NoMemory>
    ensures { IfOk result (λ text. text.items ≡ not_a_run_line label) }
{
    let number = format!(in alloc; "{label}")?;
    let mut line = Vec::new(alloc);
    line.extend_from_slice(b"not a run: label ")?;
    line.extend_from_slice(number.as_bytes())?;
    line.extend_from_slice(b"\n")?;
    Ok(line)
}

/// Writes at which label, counted from 0, a journal is no run.
pub fn say_stuck<K: Sink>(alloc: Global, label: usize, sink: &mut K) -> Status
    ensures says { SaysLine (K.written sink.old) (K.written sink.new) (K.faults sink.old) (K.faults sink.new) (not_a_run_line label) Status.NotARun result }
    ensures once { WritesOnce (K.writes sink.old) (K.writes sink.new) result }
    ensures failed { K.faults sink.old ≤ K.faults sink.new }
{
    match stuck_line(alloc, label) {
        Ok(line) => say(sink, line.as_slice(), Status::NotARun),
        Err(NoMemory) => Status::NoMemory,
    }
}
