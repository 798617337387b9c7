//! The law of what an access holds, as clauses of a function that does nothing.

ghost use Rattle.std.specs.Prelude.{◌≡◌, ℕ, true, List, ◌∷◌, ◌++◌, Some, slice_get};
ghost use Rattle.mind_base.specs.Fit.{IsFit};
ghost use Rattle.mind_base.specs.Pending.{PendingView};
ghost use Rattle.mind_base.specs.Place.{place_of, page_at};
ghost use Rattle.mind_base.specs.declared.events.Event.{Event as event};
ghost use Rattle.mind_base.specs.declared.images.Image.{Image as image};
ghost use Rattle.mind_base.specs.declared.notes.Note.TheVariants as notes;
ghost use Rattle.mind_base.specs.declared.notes.Note.{Note as note};
ghost use Rattle.mind_base.specs.declared.plans.RackPlan.{RackPlan as rack_plan};
ghost use Rattle.mind_base.specs.declared.plans.ThreadPlan.{ThreadPlan as thread_plan};
ghost use Rattle.hart_effect.specs.Access.{AccessView};
ghost use Rattle.hart_effect.specs.Thread.{Thread};
ghost use Rattle.coherence.specs.Held.{held_by, no_holdings};
ghost use Rattle.tso_machine.specs.Replay.{Whole, labels, replay};
ghost use Rattle.tso_machine.specs.State.{State, start_state};
ghost use Rattle.rack_core.specs.Accesses.{AreAccessesHeld, IsPerformed};
ghost use Rattle.rack_core.specs.AtOnce.{is_held_as, next_access};
ghost use Rattle.rack_core.specs.Rack.{RackView};
ghost use Rattle.rack_core.specs.Safe.{AreOfRack, Reaches};
ghost use Rattle.rack_core.specs.StandLog.{StandsForLog, made_from};
ghost use Rattle.rack_core.specs.StandRuns.{AreCounted};
ghost use Rattle.rack_core.specs.Start.{IsStart};

/// Whatever a schedule of events does, from a rack of a plan that fits: wherever its log notes that a thread executes an
/// instruction whose access is performed (a load, a store, LR, SC or AMO that does not fault), the thread's blade holds
/// the page at that point of the log, and holds it to write where SC or AMO is performed; and wherever it notes that a
/// store drains, the blade holds the store's page to write.
pub fn accesses_hold_their_pages()
    ensures log { (images : List image) (plan : rack_plan) (events : List event) (first last : RackView) (noted : List note)
        → IsFit plan → IsStart plan first → AreOfRack events → Reaches images events first last noted → AreCounted last
        → AreAccessesHeld (made_from images plan) (start_state (made_from images plan)) no_holdings noted }
    ensures performs { (images : List image) (rack : RackView) (before later : List note) (h : ℕ) (m : State) (thread : thread_plan) (access : AccessView)
        → StandsForLog images rack (before ++ notes.Exec h ∷ later)
        → replay (made_from images rack.plan) (start_state (made_from images rack.plan)) (labels before) ≡ Whole m
        → slice_get rack.plan.threads h ≡ Some thread → next_access (made_from images rack.plan) m.threads h ≡ Some access
        → IsPerformed (made_from images rack.plan) m h
        → is_held_as access.kind (held_by before thread.blade (page_at (place_of access.domain access.address))) ≡ true }
    ensures drains { (images : List image) (rack : RackView) (before later : List note) (h : ℕ) (m : State) (thread : thread_plan) (running : Thread) (oldest : PendingView) (newer : List PendingView)
        → StandsForLog images rack (before ++ notes.Drain h ∷ later)
        → replay (made_from images rack.plan) (start_state (made_from images rack.plan)) (labels before) ≡ Whole m
        → slice_get rack.plan.threads h ≡ Some thread → slice_get m.threads h ≡ Some running → running.buffer ≡ oldest ∷ newer
        → held_by before thread.blade (page_at (place_of thread.domain oldest.address)) ≡ Some true }
{}
