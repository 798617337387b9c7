//! The end of a move: the table and the pools that it leaves.

ghost use Rattle.std.specs.Prelude.{◌≡◌, ℕ, ◌≤◌, ◌^◌, ◌↔◌, ◌⊎◌, ◌∷◌, List, Some, filter, not, Contains, IsTrue};
ghost use Rattle.mind_base.specs.Range.{RangeView, same_range};
ghost use Rattle.range_translate.specs.Place.{FitsOutlier};
ghost use Rattle.range_translate.specs.Table.{IsTable};
ghost use Rattle.range_migrate.specs.Run.{ArePools, AreRuns, FitsRun, IsFreeAt, first_spare_of, has_spare_page};
ghost use Rattle.range_migrate.specs.Plan.{outside};
ghost use Rattle.range_migrate.specs.Ending.{FitsSpare, IsUnderWay, Frees, outlier_of, table_after};
ghost use Rattle.range_migrate.specs.Migrates.{Migrate, Reached, IsPlanned};

use crate::Move;
use crate::runs::give_run;
use mind_base::Range;
use range_translate::{Outlier, Table};
use spare_pool::Pool;

/// Ends a move whose pages were all copied: the moved blocks inside its block are removed and their
/// runs become free, and then its own run, if it has one, is entered. It takes no memory. The move is
/// one migrate more after those that led to its plan.
pub fn finish(step: Move, table: &mut Table, pools: &mut Vec<Pool>)
    requires under_way { IsUnderWay table.old pools.old.items step }
    requires copied { 2 ^ step.range.log ≤ step.next }
    ensures table { table.new ≡ table_after step table.old }
    ensures freed { Frees table.old.homes step.range table.old.outliers pools.old.items pools.new.items }
    ensures pools { ArePools table.old.homes pools.new.items }
    ensures runs { AreRuns table.old.homes table.new.outliers pools.new.items }
    ensures reached { (migrates : List Migrate) (range : RangeView) (memory : ℕ) (planned : Move)
        → IsPlanned table.old pools.old.items migrates range memory planned → step ≡ record planned { next = step.next }
        → Reached table.new.homes table.new.slots (record { range = range; memory = memory; result = Ok planned } ∷ migrates) table.new.outliers pools.new.items }
    ensures valid { IsTable table.new }
{
    end_move(step, table, pools);
}

fn end_move(step: Move, table: &mut Table, pools: &mut Vec<Pool>)
    requires under_way { IsUnderWay table.old pools.old.items step }
    requires copied { 2 ^ step.range.log ≤ step.next }
    ensures table { table.new ≡ table_after step table.old }
    ensures freed { Frees table.old.homes step.range table.old.outliers pools.old.items pools.new.items }
    ensures pools { ArePools table.old.homes pools.new.items }
    ensures runs { AreRuns table.old.homes table.new.outliers pools.new.items }
    ensures valid { IsTable table.new }
{
    remove_inside(&step.range, table, pools);
    let Some(first) = step.run else {
        return;
    };
    let Ok(()) = table.put_outlier(outlier_of(&step, first, table)) else {
        unreachable!();
    };
}

/// The outlier of a move to this run.
fn outlier_of(step: &Move, first: u32, table: &Table) -> Outlier
    requires run { FitsSpare table.now.homes step.now (Some first) }
    ensures outlier { result ≡ outlier_of table.now.homes step.now first }
    ensures fits { FitsOutlier result }
{
    Outlier {
        range: step.range,
        memory: step.memory,
        first: table.spare_base(step.memory) + first,
    }
}

/// Removes the outliers inside the block, and makes their runs free.
fn remove_inside(range: &Range, table: &mut Table, pools: &mut Vec<Pool>)
    requires pools { ArePools table.old.homes pools.old.items }
    requires runs { AreRuns table.old.homes table.old.outliers pools.old.items }
    ensures table { table.new ≡ record table.old { outliers = outside range.now table.old.outliers } }
    ensures freed { Frees table.old.homes range.now table.old.outliers pools.old.items pools.new.items }
    ensures pools { ArePools table.old.homes pools.new.items }
    ensures valid { IsTable table.new }
{
    while let Some(outlier) = table.next_inside(range) {
        remove_one(&outlier, table, pools);
    }
}

/// Removes one outlier, and makes its run free.
fn remove_one(outlier: &Outlier, table: &mut Table, pools: &mut Vec<Pool>)
    requires there { Contains table.old.outliers outlier.now }
    requires pools { ArePools table.old.homes pools.old.items }
    requires runs { AreRuns table.old.homes table.old.outliers pools.old.items }
    ensures table { table.new ≡ record table.old { outliers = filter (λ o. not (same_range o.range outlier.now.range)) table.old.outliers } }
    ensures freed { (m page : ℕ) → IsFreeAt pools.new.items m page
        ↔ (IsFreeAt pools.old.items m page ⊎ IsTrue (has_spare_page table.old.homes m page outlier.now)) }
    ensures pools { ArePools table.old.homes pools.new.items }
    ensures runs { AreRuns table.old.homes table.new.outliers pools.new.items }
    ensures valid { IsTable table.new }
{
    let first = first_of(outlier, table);
    table.remove(&outlier.range);
    give_run(pools, outlier.memory, first, outlier.range.log);
}

/// The first page of the outlier's run, counted among the spare pages.
fn first_of(outlier: &Outlier, table: &Table) -> u32
    requires { FitsRun table.now.homes outlier.now }
    ensures first { result ≡ first_spare_of table.now.homes outlier.now }
    ensures table { IsTable table.now }
{
    outlier.first - table.spare_base(outlier.memory)
}
