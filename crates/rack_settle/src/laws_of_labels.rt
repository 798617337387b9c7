//! Laws of the labels of settled events: functions that do nothing, with the laws as clauses.

ghost use Rattle.std.specs.Prelude.{◌≡◌, ◌++◌, ◌∷◌, ℕ, List, []};
ghost use Rattle.std.specs.List.Sorted.{IsPermutation};
ghost use Rattle.mind_base.specs.Fit.{IsFit};
ghost use Rattle.mind_base.specs.Page.{PageView};
ghost use Rattle.mind_base.specs.declared.events.Event.{Event as event};
ghost use Rattle.mind_base.specs.declared.events.Event.TheVariants.{Step, Drain};
ghost use Rattle.mind_base.specs.declared.images.Image.{Image as image};
ghost use Rattle.mind_base.specs.declared.notes.Note.{Note as note};
ghost use Rattle.mind_base.specs.declared.plans.RackPlan.{RackPlan as rack_plan};
ghost use Rattle.page_image.specs.PageImage.{PageImageView};
ghost use Rattle.rack_core.specs.Calls.{IsQuiet};
ghost use Rattle.rack_core.specs.Events.{Leads};
ghost use Rattle.rack_core.specs.Rack.{RackView};
ghost use Rattle.rack_core.specs.Safe.{IsSafe, IsOfRack, AreOfRack, Reaches};
ghost use Rattle.rack_core.specs.Shape.{IsShaped};
ghost use Rattle.rack_core.specs.StandLog.{StandsForLog, made_from};
ghost use Rattle.rack_core.specs.StandRuns.{AreCounted, GoesWith};
ghost use Rattle.rack_core.specs.Start.{IsStart};
ghost use Rattle.rack_core.specs.Waits.{AreNeeded};
ghost use Rattle.rack_settle.specs.Labels.{owed, OwesNothingFor, asked_labels, all_asked, AsksNothing, AskNothing, IsOneEach, SettlesEach, settled_labels};
ghost use Rattle.tso_machine.specs.Replay.{labels};
ghost use Rattle.tso_machine.specs.State.{Setup, State};
ghost use Rattle.tso_machine.specs.declared.labels.Label.{Label as label};

/// What waits for a page is performed exactly once: a rack owes a label for each step and each drain that waits, and
/// in every event the labels that are noted and those that are owed then are, in any order, those that the event asks
/// for and those that were owed. An event in which no hart is to step or to drain asks for none, whatever a link
/// delivers, loses or repeats. A step and a drain of a hart for whose blade nothing waits ask for the label that the
/// abstract machine's rule gives, in the state for which the rack stands.
pub fn what_waits_is_performed_once()
    ensures others { (images : List image) (e : event) (old new : RackView) (noted : List note)
        → AsksNothing e → IsSafe old → AreNeeded images old → Leads images e old new noted
        → IsPermutation (labels noted ++ owed new) (owed old) }
    ensures step { (images : List image) (setup : Setup) (h : ℕ) (old new : RackView) (noted : List note) (flat : PageView → PageImageView) (m : State)
        → GoesWith images setup old flat m → AreNeeded images old → OwesNothingFor h old → Leads images (Step h) old new noted
        → IsPermutation (labels noted ++ owed new) (asked_labels setup m.threads (Step h) ++ owed old) }
    ensures drain { (images : List image) (setup : Setup) (h : ℕ) (old new : RackView) (noted : List note) (flat : PageView → PageImageView) (m : State)
        → GoesWith images setup old flat m → OwesNothingFor h old → Leads images (Drain h) old new noted
        → IsPermutation (labels noted ++ owed new) (asked_labels setup m.threads (Drain h) ++ owed old) }
{}

/// A settling performs what waits and nothing else: events that ask for nothing, as deliveries and resends, and that
/// lead to a rack that owes nothing, note the labels that were owed, each once, in some order. Where one step or
/// drain waited, exactly its label is noted; where none did, none is. A quiet rack owes nothing, nor does one that
/// starts.
pub fn settling_performs_what_waits()
    ensures labels { (images : List image) (turns : List event) (old new : RackView) (noted : List note)
        → IsSafe old → AreNeeded images old → AreOfRack turns → AskNothing turns → Reaches images turns old new noted → owed new ≡ []
        → IsPermutation (labels noted) (owed old) }
    ensures one { (images : List image) (turns : List event) (old new : RackView) (noted : List note) (l : label)
        → IsSafe old → AreNeeded images old → AreOfRack turns → AskNothing turns → Reaches images turns old new noted → owed new ≡ []
        → owed old ≡ l ∷ [] → labels noted ≡ l ∷ [] }
    ensures none { (images : List image) (turns : List event) (old new : RackView) (noted : List note)
        → IsSafe old → AreNeeded images old → AreOfRack turns → AskNothing turns → Reaches images turns old new noted → owed new ≡ []
        → owed old ≡ [] → labels noted ≡ [] }
    ensures quiet { (rack : RackView) → IsQuiet rack → owed rack ≡ [] }
    ensures starts { (plan : rack_plan) (rack : RackView) → IsStart plan rack → owed rack ≡ [] }
{}

/// From a rack that owes nothing, let events have at most one step or drain of the threads of each blade, and let a
/// settling follow them. The labels noted in all of it are, in any order, those that the events ask for by the abstract
/// machine's rule in the state to which the log before them leads. So of one event they are just those that it asks for.
/// Before the settling, what is noted and what is owed are those.
pub fn settled_stretches_have_their_labels()
    ensures stretch { (images : List image) (events turns : List event) (old mid new : RackView) (log noted later : List note)
        → (stands : StandsForLog images old log) → AreNeeded images old → owed old ≡ []
        → AreOfRack events → IsOneEach old.plan events → Reaches images events old mid noted
        → AreOfRack turns → AskNothing turns → Reaches images turns mid new later → owed new ≡ []
        → IsPermutation (labels (noted ++ later)) (all_asked (made_from images old.plan) stands.state.threads events) }
    ensures one_event { (images : List image) (e : event) (turns : List event) (old mid new : RackView) (log noted later : List note)
        → (stands : StandsForLog images old log) → AreNeeded images old → owed old ≡ []
        → IsOfRack e → Leads images e old mid noted
        → AreOfRack turns → AskNothing turns → Reaches images turns mid new later → owed new ≡ []
        → labels (noted ++ later) ≡ asked_labels (made_from images old.plan) stands.state.threads e }
    ensures before { (images : List image) (events : List event) (old new : RackView) (log noted : List note)
        → (stands : StandsForLog images old log) → AreNeeded images old → owed old ≡ []
        → AreOfRack events → IsOneEach old.plan events → Reaches images events old new noted
        → IsPermutation (labels noted ++ owed new) (all_asked (made_from images old.plan) stands.state.threads events) }
{}

/// Where each event is settled before the next one, the labels are a function of what the abstract machine is made
/// from and of the events: each event's are those that it asks for in the state to which the labels before it lead.
/// Whatever the links do meanwhile, two such runs of the same events note the same labels.
pub fn labels_of_settled_events_are_determined()
    ensures each { (images : List image) (events : List event) (first last : RackView) (log noted : List note)
        → StandsForLog images first log → AreNeeded images first → owed first ≡ [] → AreOfRack events → SettlesEach images events first last noted
        → labels noted ≡ settled_labels (made_from images first.plan) (labels log) events }
    ensures from_start { (images : List image) (plan : rack_plan) (events : List event) (first last : RackView) (noted : List note)
        → IsFit plan → IsStart plan first → AreOfRack events → SettlesEach images events first last noted
        → labels noted ≡ settled_labels (made_from images plan) [] events }
    ensures same { (images : List image) (plan : rack_plan) (events : List event) (first other last last_other : RackView) (noted noted_other : List note)
        → IsFit plan → AreOfRack events
        → IsStart plan first → SettlesEach images events first last noted
        → IsStart plan other → SettlesEach images events other last_other noted_other
        → labels noted ≡ labels noted_other }
    ensures counted { (rack : RackView) → IsShaped rack → AreCounted rack }
{}
