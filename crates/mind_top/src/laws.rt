//! Laws of the program: functions that do nothing, with the laws as clauses.

ghost use Rattle.std.specs.Prelude.{◌≡◌, ◌↔◌, ◌≤◌, ◌++◌, ℕ, List, [], length, Some, None, Result, Ok};
ghost use Rattle.std.specs.FinMap.{get};
ghost use Rattle.mind_base.specs.Fit.{IsFit};
ghost use Rattle.mind_base.specs.Store.{Files};
ghost use Rattle.mind_base.specs.declared.plans.RackPlan.{RackPlan as rack_plan};
ghost use Rattle.rack_gen.specs.Generator.{generated_text};
ghost use Rattle.journal_text.specs.Journal.{AreJournalNotes};
ghost use Rattle.report_text.specs.Counts.{counts_line};
ghost use Rattle.rack_settle.specs.Stretches.{AreSettledEach};
ghost use Rattle.mind_inputs.specs.Inputs.{Accepted, Ending, rack_seen_judged, seen_of};
ghost use Rattle.mind_inputs.specs.Journals.{Checkable, JudgesCheck};
ghost use Rattle.mind_inputs.specs.Words.{Paths};
ghost use Rattle.mind_top.specs.Words.{Form, Run, Check, Load, IsCheckForm};
ghost use Rattle.mind_top.specs.declared.words.Output.TheVariants.{Report as report, Journal as journal_of};
ghost use Rattle.mind_top.specs.Due.{DoneBy, Due, CallFor, said_of_check};
ghost use Rattle.mind_top.specs.Headline.{Headline};
ghost use Rattle.mind_top.specs.Left.{Left};
ghost use Rattle.mind_top.specs.declared.statuses.Status.{Status as status};
ghost use Rattle.mind_top.specs.declared.statuses.Status.TheVariants.{Done as done};

/// What the files of a form call for is a function of them: one status, and of a check one text too.
pub fn the_files_decide()
    ensures form { (files : Files) (form : Form) (a b : status) → CallFor files form a → CallFor files form b → a ≡ b }
    ensures check { (files : Files) (words : List (List ℕ)) (paths : Paths) (journal : List ℕ) (answer : Result Checkable Ending)
        (left : Left) (due : status) (text : List ℕ) → IsCheckForm words paths journal → JudgesCheck (Some files) paths journal answer
        → Due (Some files) words left due text → (let said : status × List ℕ = (due, text) in said) ≡ said_of_check answer }
{}

/// Where the schedule that `make` writes for a rack is held, `load` leaves and writes what `run` of that file does.
pub fn what_is_made_runs_as_it_is_loaded()
    ensures { (files : Files) (rack schedule : List ℕ) (plan : rack_plan) (count seed : ℕ) → IsFit plan → count ≤ 200000
        → rack_seen_judged (seen_of (get files rack) 65536) ≡ Ok plan → get files schedule ≡ Some (generated_text plan count seed)
        → (left : Left) (text : List ℕ) → DoneBy (Some files) (Load rack count seed) left text
        ↔ DoneBy (Some files) (Run report (record { rack = rack; schedule = schedule })) left text }
{}

/// The journal of a run is found to be that of a run: where what `journal` writes is held, and is no longer than is read,
/// and the numbers in its log are within a journal's bounds, its `check` is called done, leaves nothing, and writes the
/// report that `run` writes of that run.
pub fn what_is_journalled_is_checked()
    ensures { (files : Files) (paths : Paths) (journal : List ℕ) (left : Left) (text : List ℕ)
        → DoneBy (Some files) (Run journal_of paths) left text → get files journal ≡ Some text → length text ≤ 268435456 → AreJournalNotes left.log
        → (said : List ℕ) × DoneBy (Some files) (Run report paths) left said
        × DoneBy (Some files) (Check paths journal) (record { log = []; end = None }) said × CallFor files (Check paths journal) done }
{}

/// Where each event of a schedule that is no settling is followed by one, the accepted files decide the report but for its line of
/// counts: two runs of them, whatever their links did, write the same lines before it.
pub fn settled_schedules_have_one_outcome()
    ensures { (accepted : Accepted) (a b : Left) (text other : List ℕ) → AreSettledEach accepted.events
        → Headline accepted a text → Headline accepted b other
        → (front : List ℕ) × (text ≡ front ++ counts_line a.log) × (other ≡ front ++ counts_line b.log) }
{}
