//! The law of the hits of entries, as clauses of a function that does nothing.

ghost use Rattle.std.specs.Prelude.{List, ◌≤◌, ◌+◌};
ghost use Rattle.mind_base.specs.declared.events.Event.{Event as event};
ghost use Rattle.mind_base.specs.declared.images.Image.{Image as image};
ghost use Rattle.mind_base.specs.declared.notes.Note.{Note as note};
ghost use Rattle.rack_core.specs.Events.{Leads};
ghost use Rattle.rack_core.specs.Rack.{RackView};
ghost use Rattle.rack_core.specs.Released.{all_hits, hits_of, released};
ghost use Rattle.rack_core.specs.Safe.{IsOfRack, IsSafe};
ghost use Rattle.rack_core.specs.StandLog.{StandsForLog};

/// The hits of directory entries, with the counts of acknowledgements that are under way, grow in an event of a safe
/// rack by no more than the pages of which the event notes that they were given up or lowered. So there
/// are at most as many hits as the log of the rack has such notes.
pub fn hits_are_released()
    ensures event { (images : List image) (event : event) (old new : RackView) (noted : List note)
        → IsOfRack event → IsSafe old → Leads images event old new noted → all_hits new ≤ all_hits old + released noted }
    ensures log { (images : List image) (rack : RackView) (log : List note) → StandsForLog images rack log → hits_of rack.switch.directory.entries ≤ released log }
{}
