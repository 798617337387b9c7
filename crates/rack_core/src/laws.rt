//! Laws of the rack and its runs: functions that do nothing, with the laws as clauses.

ghost use Rattle.std.specs.Prelude.{◌≡◌, ℕ, List, [], ◌++◌, Some, true};
ghost use Rattle.mind_base.specs.Fit.{IsFit};
ghost use Rattle.mind_base.specs.Page.{PageView};
ghost use Rattle.mind_base.specs.declared.events.Event.{Event as event};
ghost use Rattle.mind_base.specs.declared.images.Image.{Image as image};
ghost use Rattle.mind_base.specs.declared.notes.Note.{Note as note};
ghost use Rattle.mind_base.specs.declared.plans.RackPlan.{RackPlan as rack_plan};
ghost use Rattle.page_cache.specs.declared.frames.Frame.{Frame as frame};
ghost use Rattle.coherence.specs.Facts.{may, may_hold_writable, IsCoherent};
ghost use Rattle.mind_base.specs.declared.events.Event.TheVariants.{Step, Drain};
ghost use Rattle.page_image.specs.PageImage.{PageImageView};
ghost use Rattle.rack_core.specs.Events.{Leads};
ghost use Rattle.rack_core.specs.Calls.{IsKept};
ghost use Rattle.rack_core.specs.Noted.{AreInPlace};
ghost use Rattle.rack_core.specs.Rack.{RackView};
ghost use Rattle.rack_core.specs.Safe.{IsSafe, IsOfRack, Reaches, AreOfRack};
ghost use Rattle.rack_core.specs.Seen.{frame_at, region_at, seen};
ghost use Rattle.rack_core.specs.StandLog.{StandsForLog};
ghost use Rattle.rack_core.specs.StandRuns.{GoesWith, GoesOn, AreCounted};
ghost use Rattle.tso_machine.specs.State.{Setup, State};
ghost use Rattle.rack_core.specs.Start.{IsStart};

/// What is true of a rack at every moment stays true by each event, whatever the network does: a step, a
/// drain, an eviction, a delivery, a loss, a repeat or a resend; and so along every list of events. It is true
/// of the rack of every plan that fits, before its first event.
pub fn every_event_keeps_coherence()
    ensures event_keeps { (images : List image) (e : event) (old new : RackView) (noted : List note)
        → IsOfRack e → IsSafe old → Leads images e old new noted → IsSafe new }
    ensures run_keeps { (images : List image) (events : List event) (old new : RackView) (noted : List note)
        → AreOfRack events → IsSafe old → Reaches images events old new noted → IsSafe new }
    ensures starts { (plan : rack_plan) (rack : RackView)
        → IsFit plan → IsStart plan rack → IsSafe rack }
{}

/// In every such rack a page that a blade may write is held by no other blade, and all blades that hold a
/// page have the same bytes and tags of it.
pub fn one_writer_in_the_rack()
    ensures single_writer { (rack : RackView) (a b : ℕ) (page : PageView) (f g : frame)
        → IsSafe rack → frame_at rack.blades a page ≡ Some f → f.writable ≡ true
        → frame_at rack.blades b page ≡ Some g → a ≡ b }
    ensures same_image { (rack : RackView) (a b : ℕ) (page : PageView) (f g : frame)
        → IsSafe rack → frame_at rack.blades a page ≡ Some f → frame_at rack.blades b page ≡ Some g
        → f.image ≡ g.image }
{}

/// Whatever a schedule of such events does, from a rack of a plan that fits: a page that a blade may write is
/// held by no other blade; all blades that hold a page have the same bytes and tags of it; and the directory
/// has an entry for each page that is held, which names its blade, as the owner if the blade may write it.
pub fn caches_agree()
    ensures single_writer { (images : List image) (plan : rack_plan) (first last : RackView) (events : List event) (noted : List note)
        → IsFit plan → IsStart plan first → AreOfRack events → Reaches images events first last noted
        → (a b : ℕ) (page : PageView) (f g : frame) → frame_at last.blades a page ≡ Some f → f.writable ≡ true
        → frame_at last.blades b page ≡ Some g → a ≡ b }
    ensures same_image { (images : List image) (plan : rack_plan) (first last : RackView) (events : List event) (noted : List note)
        → IsFit plan → IsStart plan first → AreOfRack events → Reaches images events first last noted
        → (a b : ℕ) (page : PageView) (f g : frame) → frame_at last.blades a page ≡ Some f → frame_at last.blades b page ≡ Some g
        → f.image ≡ g.image }
    ensures named { (images : List image) (plan : rack_plan) (first last : RackView) (events : List event) (noted : List note)
        → IsFit plan → IsStart plan first → AreOfRack events → Reaches images events first last noted
        → (blade : ℕ) (page : PageView) (f : frame) → frame_at last.blades blade page ≡ Some f
        → (may (region_at last.switch.directory.entries page) blade ≡ true)
        × (f.writable ≡ true → may_hold_writable (region_at last.switch.directory.entries page) blade ≡ true) }
{}

/// A step and a drain of a hart in a rack that stands for a state of the abstract machine note labels that lead
/// the machine, whole, to a state that the rack stands for afterwards: the same threads, and the newest images
/// have the machine's bytes. Of no hart more stores took effect than have tags, as its blade says.
pub fn steps_and_drains_run_the_machine()
    ensures step { (images : List image) (setup : Setup) (h : ℕ) (old new : RackView) (noted : List note) (flat : PageView → PageImageView) (m : State)
        → IsCoherent (seen old flat) → GoesWith images setup old flat m → Leads images (Step h) old new noted → AreCounted new → GoesOn images setup m noted new }
    ensures drain { (images : List image) (setup : Setup) (h : ℕ) (old new : RackView) (noted : List note) (flat : PageView → PageImageView) (m : State)
        → IsCoherent (seen old flat) → GoesWith images setup old flat m → Leads images (Drain h) old new noted → AreCounted new → GoesOn images setup m noted new }
{}

/// Whatever a schedule of such events does, from a rack of a plan that fits, the labels that it notes are a run of
/// the abstract machine of that plan and of the images, from its start and whole, to a state that the rack stands
/// for. So it is before the first event and after each one, as long as of no hart more stores took effect than have
/// tags, which the blades say of the last rack.
pub fn runs_are_runs_of_the_machine()
    ensures starts { (images : List image) (plan : rack_plan) (rack : RackView)
        → IsFit plan → IsStart plan rack → StandsForLog images rack [] }
    ensures event { (images : List image) (e : event) (old new : RackView) (log noted : List note)
        → IsOfRack e → StandsForLog images old log → Leads images e old new noted → AreCounted new
        → StandsForLog images new (log ++ noted) }
    ensures run { (images : List image) (events : List event) (first last : RackView) (log noted : List note)
        → AreOfRack events → StandsForLog images first log → Reaches images events first last noted → AreCounted last
        → StandsForLog images last (log ++ noted) }
{}

/// Each note that an event adds stands in its place: that a page comes or may be written no longer in a delivery to
/// its blade; that it is given up there, in an eviction, or by a thread of the blade; that an instruction was executed
/// or a store took effect in an event of its thread or in a delivery to the thread's blade. That the event begins is
/// noted by who runs it.
pub fn notes_stand_in_their_places()
    ensures { (images : List image) (e : event) (old new : RackView) (noted : List note)
        → IsOfRack e → IsKept old → Leads images e old new noted → AreInPlace old.plan e noted }
{}
