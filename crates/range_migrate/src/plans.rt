//! Whether a block may move, and where to.

ghost use Rattle.std.specs.Prelude.{◌≡◌, ◌<◌, length, IfOk};
ghost use Rattle.mind_base.specs.Range.{IsRange};
ghost use Rattle.range_migrate.specs.Run.{ArePools, AreRuns};
ghost use Rattle.range_migrate.specs.Ending.{IsUnderWay};
ghost use Rattle.range_migrate.specs.Plan.{Plans, Takes, new_move, outside};

use crate::Move;
use crate::questions::{are_placed, have_homes_at, lie_at};
use crate::runs::{has_run, take_run};
use mind_base::{Outcome, Range};
use range_translate::Table;
use spare_pool::Pool;

/// How a move of the block to a memory blade ends, by the first of these that fits: `Unplaced`, if some
/// page has no home; `Same`, if all pages lie there; a move home, if all pages have their homes there
/// and no larger moved block has them; `Room`, if no run of spare pages is free there; `Slots`, if the
/// table has no slot for it; and else a move to the lowest free run, which is taken. After an error
/// nothing has changed.
pub fn plan(
    range: &Range,
    memory: u8,
    table: &Table,
    pools: &mut Vec<Pool>,
) -> Result<Move, Outcome>
    requires pools { ArePools table.now.homes pools.old.items }
    requires there { memory < length pools.old.items }
    ensures ends { Plans table.now pools.old.items range.now memory result }
    ensures taken { Takes pools.old.items result pools.new.items }
    ensures pools { ArePools table.now.homes pools.new.items }
    ensures ready { AreRuns table.now.homes table.now.outliers pools.old.items
        → IfOk result (IsUnderWay table.now pools.new.items) }
    ensures block { IsRange range.now.domain range.now.base range.now.log }
{
    if !are_placed(range, table) {
        return Err(Outcome::Unplaced);
    }
    if lie_at(range, memory, table) {
        return Err(Outcome::Same);
    }
    if have_homes_at(range, memory, table) && !table.encloses(range) {
        return Ok(begun(range, memory, None));
    }
    if !has_run(pools.as_slice(), memory, range.log) {
        return Err(Outcome::Room);
    }
    if others(range, table) >= table.slots() {
        return Err(Outcome::Slots);
    }
    let first = take_run(pools, memory, range.log);
    Ok(begun(range, memory, Some(first)))
}

/// How many outliers keep their slots when the block moves.
fn others(range: &Range, table: &Table) -> u32
    ensures { result ≡ length (outside range.now table.now.outliers) }
{
    table.count() - table.inside(range)
}

fn begun(range: &Range, memory: u8, run: Option<u32>) -> Move
    ensures { result ≡ new_move range.now memory run }
{
    Move {
        range: *range,
        memory,
        run,
        next: 0,
    }
}
