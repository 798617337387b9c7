//! The laws of accepted moves and of places: functions that do nothing, with the laws as clauses.

ghost use Rattle.std.specs.Prelude.{◌≡◌, ◌↔◌, ℕ, List, [], Result, Some, map};
ghost use Rattle.mind_base.specs.Page.{PageView};
ghost use Rattle.mind_base.specs.Range.{RangeView};
ghost use Rattle.mind_base.specs.declared.commands.Outcome.{Outcome as Refusal};
ghost use Rattle.mind_base.specs.declared.plans.MemoryPlan.{MemoryPlan};
ghost use Rattle.range_translate.specs.Place.{physical_place};
ghost use Rattle.range_translate.specs.Table.{TableView, IsTable};
ghost use Rattle.range_translate.specs.declared.outliers.Outlier.{Outlier};
ghost use Rattle.spare_pool.specs.Pool.{PoolView, all_free};
ghost use Rattle.range_migrate.specs.Run.{IsFreeAt, ArePools, AreRuns};
ghost use Rattle.range_migrate.specs.Plan.{Plans};
ghost use Rattle.range_migrate.specs.Accepted.{place_after, IsFreeAfter, EndsAfter};
ghost use Rattle.range_migrate.specs.Migrates.{Migrate, accepted, table_with, Reached};

use crate::Move;

/// After every list of migrates, from a table without outliers and pools that are all free: a page lies
/// where the latest accepted move that has it put it, and else at its home; a spare page is free where
/// no move in force has it in its run; and the next migrate ends as the accepted moves decide, by the
/// places, the runs and the moves in force. There is one pool for each memory blade then, and no spare
/// page has two uses, as the next move needs. `migrate` goes from each such list to the next.
pub fn accepted_moves_decide()
    ensures first { (homes : List MemoryPlan) (slots : ℕ) → IsTable (table_with homes slots []) → Reached homes slots [] [] (map (λ m. all_free m.spare) homes) }
    ensures places { (homes : List MemoryPlan) (slots : ℕ) (migrates : List Migrate) (outliers : List Outlier) (pools : List PoolView) (page : PageView)
        → Reached homes slots migrates outliers pools
        → physical_place homes outliers page ≡ place_after homes (accepted migrates) page }
    ensures free { (homes : List MemoryPlan) (slots : ℕ) (migrates : List Migrate) (outliers : List Outlier) (pools : List PoolView) (memory page : ℕ)
        → Reached homes slots migrates outliers pools
        → IsFreeAt pools memory page ↔ IsFreeAfter homes (accepted migrates) memory page }
    ensures outcomes { (homes : List MemoryPlan) (slots : ℕ) (migrates : List Migrate) (outliers : List Outlier) (pools : List PoolView)
        (range : RangeView) (memory : ℕ) (result : Result Move Refusal)
        → Reached homes slots migrates outliers pools
        → Plans (table_with homes slots outliers) pools range memory result ↔ EndsAfter homes slots (accepted migrates) range memory result }
    ensures pools { (homes : List MemoryPlan) (slots : ℕ) (migrates : List Migrate) (outliers : List Outlier) (pools : List PoolView)
        → Reached homes slots migrates outliers pools → ArePools homes pools }
    ensures runs { (homes : List MemoryPlan) (slots : ℕ) (migrates : List Migrate) (outliers : List Outlier) (pools : List PoolView)
        → Reached homes slots migrates outliers pools → AreRuns homes outliers pools }
{}

/// No two pages lie at one place, where each moved block has a run of its own among the spare pages: homes
/// are apart, runs are apart, and no run has a home page.
pub fn places_are_apart()
    ensures apart { (table : TableView) (pools : List PoolView) (a b : PageView) (place : ℕ × ℕ)
        → IsTable table → AreRuns table.homes table.outliers pools
        → physical_place table.homes table.outliers a ≡ Some place → physical_place table.homes table.outliers b ≡ Some place
        → a ≡ b }
{}
