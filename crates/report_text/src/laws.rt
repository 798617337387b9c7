//! The law of the entries that a report counts: a function that does nothing, with the law as clauses.

ghost use Rattle.std.specs.Prelude.{◌≤◌, List};
ghost use Rattle.mind_base.specs.declared.notes.Note.{Note as note};
ghost use Rattle.mind_base.specs.declared.plans.RackPlan.{RackPlan as rack_plan};
ghost use Rattle.coherence.specs.Held.{no_holdings, no_entries, in_force};
ghost use Rattle.coherence.specs.Lawful.{AreLawful};
ghost use Rattle.report_text.specs.Force.{blocks_in_force, peak};
ghost use Rattle.report_text.specs.InForce.{AreInForce};

/// Of a log that is lawful at every point, the report counts the blocks whose entries are in force by the same notes, and
/// at no point more of them than the plan's directory has slots.
pub fn what_is_counted_is_in_force()
    ensures blocks { (plan : rack_plan) (log : List note) → AreLawful plan no_holdings no_entries log
        → AreInForce (blocks_in_force log) (in_force log) }
    ensures peak { (plan : rack_plan) (log : List note) → AreLawful plan no_holdings no_entries log → peak log ≤ plan.slots }
{}
