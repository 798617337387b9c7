//! Laws of what the log of a rack tells: functions that do nothing, with the laws as clauses.

ghost use Rattle.std.specs.Prelude.{◌≡◌, ℕ, List, ◌∷◌, ◌++◌};
ghost use Rattle.mind_base.specs.Fit.{IsFit};
ghost use Rattle.mind_base.specs.Page.{PageView};
ghost use Rattle.mind_base.specs.declared.events.Event.{Event as event};
ghost use Rattle.mind_base.specs.declared.events.Event.TheVariants.{Step, Drain, Evict};
ghost use Rattle.mind_base.specs.declared.images.Image.{Image as image};
ghost use Rattle.mind_base.specs.declared.links.LinkKind.TheVariants.{Down};
ghost use Rattle.mind_base.specs.declared.notes.Note.{Note as note};
ghost use Rattle.mind_base.specs.declared.plans.RackPlan.{RackPlan as rack_plan};
ghost use Rattle.page_image.specs.PageImage.{PageImageView};
ghost use Rattle.wire_msg.specs.declared.msgs.Msg.{Msg};
ghost use Rattle.coherence.specs.Facts.{IsCoherent};
ghost use Rattle.coherence.specs.Held.{entries_after, held_after, held_by, in_force};
ghost use Rattle.coherence.specs.Lawful.{IsLawful, IsWithin, MayBeNoted, Tells};
ghost use Rattle.rack_core.specs.BladeMoves.{AreBladesSound, handing};
ghost use Rattle.rack_core.specs.Events.{Leads, HandsTo};
ghost use Rattle.rack_core.specs.Frames.{HaveFrames};
ghost use Rattle.rack_core.specs.Rack.{RackView};
ghost use Rattle.rack_core.specs.Safe.{IsSafe, IsOfRack, Reaches, AreOfRack};
ghost use Rattle.rack_core.specs.Seen.{seen};
ghost use Rattle.rack_core.specs.Start.{IsStart};
ghost use Rattle.rack_core.specs.Telling.{HasRoom, IsLogOf, NotesTell};

/// What a blade notes of a step, a drain, an eviction or a message that it is handed tells how the rack came about,
/// lawfully at every point; and then no blade holds more pages than it has frames.
pub fn blades_tell_what_they_did()
    ensures step { (images : List image) (h : ℕ) (plan : rack_plan) (old new : RackView) (noted : List note) (flat newer : PageView → PageImageView)
        → IsCoherent (seen old flat) → IsWithin plan (seen old flat) → AreBladesSound old → HaveFrames plan old.blades
        → Leads images (Step h) old new noted → Tells plan (seen old flat) noted (seen new newer) × HaveFrames plan new.blades }
    ensures drain { (images : List image) (h : ℕ) (plan : rack_plan) (old new : RackView) (noted : List note) (flat newer : PageView → PageImageView)
        → IsCoherent (seen old flat) → IsWithin plan (seen old flat) → AreBladesSound old → HaveFrames plan old.blades
        → Leads images (Drain h) old new noted → Tells plan (seen old flat) noted (seen new newer) × HaveFrames plan new.blades }
    ensures evict { (images : List image) (blade : ℕ) (page : PageView) (plan : rack_plan) (old new : RackView) (noted : List note) (flat newer : PageView → PageImageView)
        → IsCoherent (seen old flat) → IsWithin plan (seen old flat) → AreBladesSound old → HaveFrames plan old.blades
        → Leads images (Evict blade page) old new noted → Tells plan (seen old flat) noted (seen new newer) × HaveFrames plan new.blades }
    ensures message { (images : List image) (blade : ℕ) (message : Msg) (rest : List Msg) (plan : rack_plan) (old new : RackView) (noted : List note) (flat newer : PageView → PageImageView)
        → IsCoherent (handing blade (message ∷ rest) (seen old flat)) → IsWithin plan (seen old flat) → AreBladesSound old → HaveFrames plan old.blades
        → HandsTo Down images blade message old new noted → Tells plan (seen old flat) noted (seen new newer) × HaveFrames plan new.blades }
    ensures within { (plan : rack_plan) (old new : RackView) (flat newer : PageView → PageImageView) → AreBladesSound new → HaveFrames plan new.blades
        → IsWithin plan (seen old flat) → new.switch ≡ old.switch → IsWithin plan (seen new newer) }
{}

/// What is noted of an event is lawful at every point of it, where what is held and which entries are in force was
/// before: a page that may be written is held by no other blade; each page that is held lies in an entry that names its
/// blade; no page lies in two entries; no more entries are in force than slots, and no blade holds more pages than it
/// has frames. And it leads to what is in the caches and the directory after the event. So the log of whatever a
/// schedule of such events does, from a rack of a plan that fits, is lawful at every point, and leads to what is there.
pub fn logs_tell_what_is_there()
    ensures event { (images : List image) (plan : rack_plan) (e : event) (old new : RackView) (noted : List note)
        → IsOfRack e → IsSafe old → HasRoom plan old → Leads images e old new noted → NotesTell plan old new noted }
    ensures log { (images : List image) (plan : rack_plan) (events : List event) (first last : RackView) (noted : List note)
        → IsFit plan → IsStart plan first → AreOfRack events → Reaches images events first last noted → IsLogOf plan last noted }
    ensures point { (images : List image) (plan : rack_plan) (events : List event) (first last : RackView) (noted before after : List note) (n : note)
        → IsFit plan → IsStart plan first → AreOfRack events → Reaches images events first last noted → noted ≡ before ++ n ∷ after
        → MayBeNoted (in_force before) n × IsLawful plan (held_after (held_by before) n) (entries_after (in_force before) n) }
{}
