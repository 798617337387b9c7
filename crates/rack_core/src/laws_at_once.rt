//! The law of what happens where nothing is under way, as clauses of a function that does nothing.

ghost use Rattle.std.specs.Prelude.{◌≡◌, ◌∷◌, ℕ, List, [], Some};
ghost use Rattle.mind_base.specs.Page.{PageView};
ghost use Rattle.mind_base.specs.declared.events.Event.TheVariants as event;
ghost use Rattle.mind_base.specs.declared.images.Image.{Image as image};
ghost use Rattle.mind_base.specs.declared.notes.Note.{Note as note};
ghost use Rattle.coherence.specs.Held.{Holdings};
ghost use Rattle.page_image.specs.PageImage.{PageImageView};
ghost use Rattle.rack_core.specs.AtOnce.{AreHeldIn, ExecutesAtOnce, HoldsOldest, IsAtMostOne};
ghost use Rattle.rack_core.specs.Events.{Leads};
ghost use Rattle.rack_core.specs.Rack.{RackView};
ghost use Rattle.rack_core.specs.StandRuns.{GoesWith};
ghost use Rattle.rack_core.specs.Waits.{AreNeeded};
ghost use Rattle.tso_machine.specs.Replay.{labels};
ghost use Rattle.tso_machine.specs.Scheduled.{step_label};
ghost use Rattle.tso_machine.specs.State.{Setup, State};
ghost use Rattle.tso_machine.specs.declared.labels.Label.TheVariants as label;

/// In a rack that stands for a state of the abstract machine a step's label stands in the very event where it
/// needs no message: an instruction is executed that makes no access, whose access is denied since it stands at no
/// multiple of its size, or whose page the hart's blade holds, to write where it writes at once. The oldest store is
/// drained, by a step that must drain it first and by a drain, where the blade holds its page to write. No such event
/// has more than one label, and it is the hart's.
pub fn what_happens_at_once()
    ensures executes { (images : List image) (setup : Setup) (h : ℕ) (old new : RackView) (noted : List note) (flat : PageView → PageImageView) (m : State) (held : Holdings)
        → GoesWith images setup old flat m → AreNeeded images old → AreHeldIn old held → ExecutesAtOnce setup held m h
        → Leads images (event.Step h) old new noted → labels noted ≡ label.Exec h ∷ [] }
    ensures step_drains { (images : List image) (setup : Setup) (h : ℕ) (old new : RackView) (noted : List note) (flat : PageView → PageImageView) (m : State) (held : Holdings)
        → GoesWith images setup old flat m → AreNeeded images old → step_label setup m.threads h ≡ Some (label.Drain h) → AreHeldIn old held → HoldsOldest setup held m h
        → Leads images (event.Step h) old new noted → labels noted ≡ label.Drain h ∷ [] }
    ensures drains { (images : List image) (setup : Setup) (h : ℕ) (old new : RackView) (noted : List note) (flat : PageView → PageImageView) (m : State) (held : Holdings)
        → GoesWith images setup old flat m → AreHeldIn old held → HoldsOldest setup held m h
        → Leads images (event.Drain h) old new noted → labels noted ≡ label.Drain h ∷ [] }
    ensures one_of_step { (images : List image) (h : ℕ) (old new : RackView) (noted : List note)
        → Leads images (event.Step h) old new noted → IsAtMostOne h (labels noted) }
    ensures one_of_drain { (images : List image) (h : ℕ) (old new : RackView) (noted : List note)
        → Leads images (event.Drain h) old new noted → IsAtMostOne h (labels noted) }
{}
