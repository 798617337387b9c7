//! A settling: turns of the network until nothing is under way.

ghost use Rattle.std.specs.Prelude.{◌≡◌, Err, OnErr, OnOk};
ghost use Rattle.mind_base.specs.Fit.{FitImages};
ghost use Rattle.mind_base.specs.declared.events.Event.TheVariants as event;
ghost use Rattle.mind_base.specs.declared.failures.Stop.TheVariants.{Spent};
ghost use Rattle.compute_blade.specs.Blade.{BeginsWith};
ghost use Rattle.rack_core.specs.Calls.{HasSpentNumber, IsKept, IsQuiet, Notes};
ghost use Rattle.rack_core.specs.Noted.{AreInPlace, CarriesOn};
ghost use Rattle.rack_core.specs.Waits.{AreNeeded};
ghost use Rattle.rack_settle.specs.Labels.{owed};
ghost use Rattle.rack_settle.specs.Settled.{FindsTurn, Settles};
ghost use Rattle.std.specs.List.Sorted.{IsPermutation};
ghost use Rattle.tso_machine.specs.Replay.{labels};

use mind_base::{Event, Image, Log, Stop};
use rack_core::Rack;

/// The turn that comes next: frame 0 of the first wire that is not empty is delivered; where all are empty, the
/// first link that keeps messages sends them again. None where no link does.
fn next_turn(rack: &Rack) -> Option<Event>
    ensures { FindsTurn rack.now result }
{
    match rack.first_frame() {
        Some((link, side)) => Some(Event::Deliver { link, side, k: 0 }),
        None => match rack.first_kept() {
            Some(link) => Some(Event::Resend { link }),
            None => None,
        },
    }
}

/// Delivers and resends until nothing is under way: no frame, no message that is kept, no request and no
/// transition. `Spent` comes where a number would pass its last value; the log then has what was noted before
/// and behind it.
pub fn settle(rack: &mut Rack, images: &[Image], log: &mut Log) -> Result<(), Stop>
    requires kept { IsKept rack.old }
    requires images { FitImages rack.old.plan.images images.now }
    ensures settles { OnOk result (Notes (Settles images.now rack.old rack.new) log.old.notes log.new.notes) }
    ensures kept { OnOk result (IsKept rack.new) }
    ensures quiet { OnOk result (IsQuiet rack.new) }

    // What waited is noted, each once and in some order, and nothing else, where each step waits for what it needs.
    ensures labels { OnOk result (AreNeeded images.now rack.old → Notes (λ noted. IsPermutation (labels noted) (owed rack.old)) log.old.notes log.new.notes) }

    // The labels noted carry on the run of the machine for which the rack stood; the notes may stand in a settling.
    ensures stands { OnOk result (Notes (CarriesOn images.now rack.old rack.new) log.old.notes log.new.notes) }
    ensures places { OnOk result (Notes (AreInPlace rack.old.plan event.Settle) log.old.notes log.new.notes) }
    ensures spent { result ≡ Err Spent → HasSpentNumber rack.new }
    ensures err { OnErr result (BeginsWith log.old.notes log.new.notes) }
    ensures plan { rack.new.plan ≡ rack.old.plan }
{
    while let Some(turn) = next_turn(rack) {
        rack.event(&turn, images, log)?;
    }
    Ok(())
}
