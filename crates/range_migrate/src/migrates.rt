//! A migrate command, from its question to its answer.

ghost use Rattle.std.specs.Prelude.{◌≡◌, ◌<◌, ◌≤◌, ◌^◌, ◌∷◌, List, length};
ghost use Rattle.range_migrate.specs.Plan.{Plans};
ghost use Rattle.range_migrate.specs.Ending.{IsPlaced, FitsSpare};
ghost use Rattle.range_migrate.specs.Migrates.{Migrate, Reached, AreReached};

use crate::{Move, finish, next_copy, plan};
use mind_base::{Outcome, Range};
use range_translate::Table;
use spare_pool::Pool;

/// Plans the move of a block, goes over its copies and ends it, all at once. It is one migrate more after
/// those that led to the table and the pools. A rack does the same with messages between the copies.
pub fn migrate(
    range: &Range,
    memory: u8,
    table: &mut Table,
    pools: &mut Vec<Pool>,
) -> Result<Move, Outcome>
    requires reached { AreReached table.old pools.old.items }
    requires there { memory < length pools.old.items }
    ensures ends { Plans table.old pools.old.items range.now memory result }
    ensures reached { (migrates : List Migrate) → Reached table.old.homes table.old.slots migrates table.old.outliers pools.old.items
        → Reached table.new.homes table.new.slots (record { range = range.now; memory = memory; result = result } ∷ migrates) table.new.outliers pools.new.items }
{
    match plan(range, memory, table, pools) {
        Ok(step) => {
            finish(copied(&step, table), table, pools);
            Ok(step)
        }
        Err(outcome) => Err(outcome),
    }
}

/// The move when all its pages were copied.
fn copied(step: &Move, table: &Table) -> Move
    requires placed { IsPlaced table.now.homes step.now.range }
    requires run { FitsSpare table.now.homes step.now step.now.run }
    ensures same { result ≡ record step.now { next = result.next } }
    ensures all { 2 ^ result.range.log ≤ result.next }
{
    let mut moving = *step;
    while let Some(_copy) = next_copy(&mut moving, table) {}
    moving
}
