//! The law of what waits, as clauses of a function that does nothing.

ghost use Rattle.std.specs.Prelude.{◌≡◌, ◌∷◌, ℕ, Bool, List, [], Some, slice_get};
ghost use Rattle.compute_blade.specs.Blade.{BladeView, request_for, with_frames};
ghost use Rattle.compute_blade.specs.Messages.{after_message};
ghost use Rattle.compute_blade.specs.declared.kept.Answer.{Answer as answer_kind};
ghost use Rattle.compute_blade.specs.declared.kept.Asked.{Asked as request};
ghost use Rattle.compute_blade.specs.declared.kept.Waits.TheVariants as waits;
ghost use Rattle.mind_base.specs.Fit.{IsFit};
ghost use Rattle.mind_base.specs.Page.{PageView};
ghost use Rattle.mind_base.specs.declared.commands.Perm.{Perm as permission};
ghost use Rattle.mind_base.specs.declared.events.Event.{Event as event};
ghost use Rattle.mind_base.specs.declared.images.Image.{Image as image};
ghost use Rattle.mind_base.specs.declared.notes.Note.{Note as note};
ghost use Rattle.mind_base.specs.declared.plans.RackPlan.{RackPlan as rack_plan};
ghost use Rattle.page_cache.specs.declared.frames.Frame.{Frame as frame};
ghost use Rattle.page_image.specs.PageImage.{PageImageView};
ghost use Rattle.rack_core.specs.Events.{Leads};
ghost use Rattle.rack_core.specs.Rack.{RackView};
ghost use Rattle.rack_core.specs.Safe.{IsSafe, AreOfRack, Reaches};
ghost use Rattle.rack_core.specs.Start.{IsStart};
ghost use Rattle.rack_core.specs.Waits.{AreNeeded, IsResumed};
ghost use Rattle.tso_machine.specs.Replay.{labels};
ghost use Rattle.tso_machine.specs.declared.labels.Label.TheVariants as label;
ghost use Rattle.wire_msg.specs.declared.msgs.Msg.TheVariants as msg;

/// Whatever a schedule does, with one list of images each step that waits for a page needs just what it asked for:
/// so in a rack that starts, after each event, and along every list of events. When its page comes it is performed,
/// and when the page is denied it is refused, whatever pages its blade holds by then; that is its label.
pub fn waits_fit()
    ensures starts { (images : List image) (plan : rack_plan) (rack : RackView) → IsStart plan rack → AreNeeded images rack }
    ensures event_keeps { (images : List image) (e : event) (old new : RackView) (noted : List note)
        → IsSafe old → Leads images e old new noted → AreNeeded images old → AreNeeded images new }
    ensures run_keeps { (images : List image) (events : List event) (old new : RackView) (noted : List note)
        → AreOfRack events → IsSafe old → Reaches images events old new noted → AreNeeded images old → AreNeeded images new }
    ensures reached { (images : List image) (plan : rack_plan) (first last : RackView) (events : List event) (noted : List note)
        → IsFit plan → IsStart plan first → AreOfRack events → Reaches images events first last noted → AreNeeded images last }
    ensures goes_on { (answer : answer_kind) (images : List image) (rack : RackView) (c : ℕ) (blade : BladeView) (page : PageView) (asked : request) (entries : List (PageView × frame))
        → IsSafe rack → AreNeeded images rack → slice_get rack.blades c ≡ Some blade
        → request_for page blade.requests ≡ Some asked → asked.waits ≡ waits.Step
        → IsResumed answer images asked (with_frames blade entries) }
    ensures filled { (images : List image) (rack : RackView) (c : ℕ) (blade : BladeView) (page : PageView) (asked : request) (perm : permission) (writable : Bool) (content : PageImageView)
        → IsSafe rack → AreNeeded images rack → slice_get rack.blades c ≡ Some blade
        → request_for page blade.requests ≡ Some asked → asked.waits ≡ waits.Step
        → labels (after_message images (msg.Fill page perm writable content) blade).noted ≡ label.Exec asked.hart ∷ [] }
    ensures denied { (images : List image) (rack : RackView) (c : ℕ) (blade : BladeView) (page : PageView) (asked : request)
        → IsSafe rack → AreNeeded images rack → slice_get rack.blades c ≡ Some blade
        → request_for page blade.requests ≡ Some asked → asked.waits ≡ waits.Step
        → labels (after_message images (msg.Deny page) blade).noted ≡ label.Exec asked.hart ∷ [] }
{}
