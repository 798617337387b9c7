//! Laws of whole schedules: functions that do nothing, with the laws as clauses.

ghost use Rattle.std.specs.Prelude.{◌≡◌, ◌++◌, ◌∷◌, List, [], length, Some};
ghost use Rattle.std.specs.List.{AllByRecursion};
ghost use Rattle.mind_base.specs.Fit.{IsFit};
ghost use Rattle.mind_base.specs.declared.events.Event.{Event as event};
ghost use Rattle.mind_base.specs.declared.events.Event.TheVariants.{Step, Settle};
ghost use Rattle.mind_base.specs.declared.images.Image.{Image as image};
ghost use Rattle.mind_base.specs.declared.notes.Note.{Note as note};
ghost use Rattle.mind_base.specs.declared.notes.Note.TheVariants as noted;
ghost use Rattle.mind_base.specs.declared.plans.RackPlan.{RackPlan as rack_plan};
ghost use Rattle.coherence.specs.Held.{no_holdings};
ghost use Rattle.rack_core.specs.AtOnce.{ExecutesAtOnce};
ghost use Rattle.rack_core.specs.Rack.{RackView};
ghost use Rattle.rack_core.specs.StandLog.{made_from};
ghost use Rattle.rack_core.specs.StandRuns.{AreCounted};
ghost use Rattle.rack_core.specs.Start.{IsStart};
ghost use Rattle.rack_settle.specs.Prompt.{HappensInLog};
ghost use Rattle.rack_settle.specs.Ran.{IsRunFor, Ran};
ghost use Rattle.rack_settle.specs.Stretches.{HasSettledLabels};
ghost use Rattle.tso_machine.specs.Scheduled.{step_label};
ghost use Rattle.tso_machine.specs.State.{Setup, start_state};
ghost use Rattle.tso_machine.specs.declared.labels.Label.TheVariants.{Exec};

/// In a rack that ran through a schedule from its start, a step and a drain have their label in their own event wherever
/// it needs no message: by the state to which the labels before it lead, and by what the notes before it tell is held.
pub fn labels_stand_at_once()
    ensures { (images : List image) (plan : rack_plan) (events : List event) (first last : RackView) (log : List note)
        → IsFit plan → IsStart plan first → AllByRecursion (IsRunFor plan) events → Ran images 0 events first last log → AreCounted last
        → (before after : List event) (e : event) → events ≡ before ++ (e ∷ after)
        → HappensInLog (made_from images plan) log (length before) e (length after) }
{}

/// A rack that ran through a schedule from its start noted in each stretch between two settlings, and in the settling
/// behind it, the labels that the events there ask for. Where each event is settled before the next one, all labels of
/// the log are decided by the machine's plan and images and by the events.
pub fn schedules_have_settled_labels()
    ensures { (images : List image) (plan : rack_plan) (events : List event) (first last : RackView) (log : List note)
        → IsFit plan → IsStart plan first → AllByRecursion (IsRunFor plan) events → Ran images 0 events first last log → AreCounted last
        → HasSettledLabels (made_from images plan) plan events log }
{}

/// A label that stands one event too late is refused. Let a hart step, a settling follow, and the hart step again, where
/// by the machine's rule its first step is an execution. A log in which that execution stands in the last of the three
/// has not the labels of settled events; nor has it what happens at once, where the first step needs no message.
pub fn labels_are_not_late()
    ensures settled { (setup : Setup) (plan : rack_plan) → step_label setup (start_state setup).threads 0 ≡ Some (Exec 0)
        → HasSettledLabels setup plan (Step 0 ∷ Settle ∷ Step 0 ∷ []) (noted.Event 0 ∷ noted.Event 1 ∷ noted.Event 2 ∷ noted.Exec 0 ∷ []) → ⊥ }
    ensures at_once { (setup : Setup) → ExecutesAtOnce setup no_holdings (start_state setup) 0
        → HappensInLog setup (noted.Event 0 ∷ noted.Event 1 ∷ noted.Event 2 ∷ noted.Exec 0 ∷ []) 0 (Step 0) 2 → ⊥ }
{}
