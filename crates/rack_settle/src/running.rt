//! A schedule on a rack, event by event, with the notes of each.

ghost use Rattle.std.specs.Prelude.{◌≡◌, ◌≤◌, ◌⊎◌, ◌++◌, ◌∷◌, ◌↔◌, [], length, Err, IsTrue, OnOk, OnErr};
ghost use Rattle.std.specs.List.{AllByRecursion};
ghost use Rattle.mind_base.specs.Fit.{FitImages};
ghost use Rattle.mind_base.specs.declared.events.Event.TheVariants as events;
ghost use Rattle.mind_base.specs.declared.failures.Stop.TheVariants.{Spent};
ghost use Rattle.mind_base.specs.declared.notes.Note.TheVariants as note;
ghost use Rattle.rack_core.specs.Calls.{HasSpentNumber, IsKept, Notes};
ghost use Rattle.rack_core.specs.Noted.{AreInPlace, CarriesOn};
ghost use Rattle.rack_core.specs.StandLog.{StandsForLog};
ghost use Rattle.rack_settle.specs.Ran.{IsRunFor, HasRun, HasStopped, LeadsOrSettles, Runs};

use crate::settle;
use mind_base::{Event, Image, Log, NoMemory, Note, Stop};
use rack_core::Rack;
use std::alloc::Global;

/// Puts notes behind a log: all of them, or none.
fn append(log: &mut Log, notes: &Log) -> Result<(), NoMemory>
    ensures ok { OnOk result (log.new.notes ≡ log.old.notes ++ notes.now.notes) }
    ensures err { OnErr result (log.new.notes ≡ log.old.notes) }
{
    log.reserve(notes.len())?;
    for i in 0..notes.len() {
        log.add(notes.get(i)).unwrap();
    }
    Ok(())
}

fn is_settling(event: Event) -> bool
    ensures { IsTrue result ↔ (event ≡ events.Settle) }
{
    matches!(event, Event::Settle)
}

/// The event, by the rack alone or by the turns of a settling.
fn take(rack: &mut Rack, event: &Event, images: &[Image], log: &mut Log) -> Result<(), Stop>
    requires kept { IsKept rack.old }
    requires fits { IsRunFor rack.old.plan event.now }
    requires images { FitImages rack.old.plan.images images.now }
    ensures leads { OnOk result (Notes (LeadsOrSettles images.now event.now rack.old rack.new) log.old.notes log.new.notes) }
    ensures places { OnOk result (Notes (AreInPlace rack.old.plan event.now) log.old.notes log.new.notes) }
    ensures kept { OnOk result (IsKept rack.new) }
    ensures stands { OnOk result (Notes (CarriesOn images.now rack.old rack.new) log.old.notes log.new.notes) }
    ensures spent { result ≡ Err Spent → HasSpentNumber rack.new }
    ensures plan { rack.new.plan ≡ rack.old.plan }
{
    if is_settling(*event) {
        settle(rack, images, log)
    } else {
        rack.event(event, images, log)
    }
}

/// Event number `index` of a schedule: its note, and behind it those of what the rack does. An event that
/// stops leaves no note but its own.
fn one_event(
    alloc: Global,
    rack: &mut Rack,
    index: u32,
    event: &Event,
    images: &[Image],
    log: &mut Log,
) -> Result<(), Stop>
    requires kept { IsKept rack.old }
    requires fits { IsRunFor rack.old.plan event.now }
    requires images { FitImages rack.old.plan.images images.now }
    ensures ok { OnOk result (Runs images.now index event.now rack.old rack.new log.old.notes log.new.notes) }
    ensures spent { result ≡ Err Spent → HasSpentNumber rack.new }
    ensures err { OnErr result ((log.new.notes ≡ log.old.notes) ⊎ (log.new.notes ≡ log.old.notes ++ note.Event index ∷ [])) }
    ensures plan { rack.new.plan ≡ rack.old.plan }
{
    log.add(Note::Event { index })?;
    let mut noted = Log::new(alloc);
    take(rack, event, images, &mut noted)?;
    append(log, &noted)?;
    Ok(())
}

/// Runs the events of a schedule on a rack at its start, one after another, and puts their notes behind the
/// log. Where an event stops, the notes are those of the events before it and, at most, that event's number, and
/// the rack is left as the event left it.
pub fn run_all(
    alloc: Global,
    images: &[Image],
    events: &[Event],
    rack: &mut Rack,
    log: &mut Log,
) -> Result<(), Stop>
    requires kept { IsKept rack.old }
    requires images { FitImages rack.old.plan.images images.now }
    requires fit { AllByRecursion (IsRunFor rack.old.plan) events.now }
    requires few { length events.now ≤ 1000000 }
    requires stands { StandsForLog images.now rack.old [] }
    ensures ok { OnOk result (Notes (HasRun images.now events.now rack.old rack.new) log.old.notes log.new.notes) }
    ensures err { OnErr result (Notes (HasStopped images.now events.now rack.old rack.new) log.old.notes log.new.notes) }
    ensures spent { result ≡ Err Spent → HasSpentNumber rack.new }
{
    for i in 0..events.len() {
        one_event(alloc, rack, i as u32, &events[i], images, log)?;
    }
    Ok(())
}
