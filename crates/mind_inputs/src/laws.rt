//! Laws of the judgement of inputs: functions that do nothing, with the laws as clauses.

ghost use Rattle.std.specs.Prelude.{◌≡◌, ◌↔◌, ◌≤◌, ℕ, List, Some, Result, Ok};
ghost use Rattle.std.specs.FinMap.{get};
ghost use Rattle.mind_base.specs.Fit.{IsFit};
ghost use Rattle.mind_base.specs.declared.plans.RackPlan.{RackPlan as rack_plan};
ghost use Rattle.rack_gen.specs.Generator.{generated_text};
ghost use Rattle.mind_base.specs.Store.{Files};
ghost use Rattle.mind_inputs.specs.Inputs.{Ending, Judged, Judges, JudgesMade, rack_seen_judged, seen_of, judge, judge_made};
ghost use Rattle.mind_inputs.specs.Journals.{Checkable, JudgesCheck, IsOnlyJudgement};
ghost use Rattle.mind_inputs.specs.Words.{Paths};

/// Where a store tells what it holds, the inputs of a run and those of a check have one judgement: they
/// are accepted, or the first that is missing or refused ends the call.
pub fn the_files_are_judged_one_way()
    ensures run { (files : Files) (paths : Paths) (judged : Judged) → Judges (Some files) paths judged → judged ≡ judge files paths }
    ensures made { (files : Files) (rack : List ℕ) (count seed : ℕ) (judged : Judged) → JudgesMade (Some files) rack count seed judged
        → judged ≡ judge_made files rack count seed }
    ensures check { (files : Files) (paths : Paths) (journal : List ℕ) (answer : Result Checkable Ending)
        → JudgesCheck (Some files) paths journal answer → IsOnlyJudgement files paths journal answer }
{}

/// Where the schedule that the generator makes for a rack is held, the run of that file and that of the
/// generated schedule have the same inputs.
pub fn a_made_schedule_is_judged_as_it_is_made()
    ensures { (files : Files) (rack schedule : List ℕ) (plan : rack_plan) (count seed : ℕ) → IsFit plan → count ≤ 200000
        → rack_seen_judged (seen_of (get files rack) 65536) ≡ Ok plan → get files schedule ≡ Some (generated_text plan count seed)
        → (judged : Judged) → JudgesMade (Some files) rack count seed judged ↔ Judges (Some files) (record { rack = rack; schedule = schedule }) judged }
{}
