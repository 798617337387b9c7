//! The pages of a move that still have to be copied.

ghost use Rattle.std.specs.Prelude.{◌≡◌, ◌+◌, ◌≤◌, ◌^◌, ◌↔◌, Some, IsNone, IfSome, IfNone};
ghost use Rattle.mind_base.specs.Range.{InRange};
ghost use Rattle.range_translate.specs.Place.{physical_place};
ghost use Rattle.range_migrate.specs.Plan.{block_page, wanted_place};
ghost use Rattle.range_migrate.specs.Ending.{IsPlaced, FitsSpare};

use crate::questions::{page_at, pages_in};
use crate::{Copy1, Move};
use mind_base::Page;
use range_translate::Table;

/// The next page of the block that is to be copied, in rising order: from where it lies now to where it
/// is to lie. None exactly after the last page; then nothing changes.
pub fn next_copy(step: &mut Move, table: &Table) -> Option<Copy1>
    requires placed { IsPlaced table.now.homes step.old.range }
    requires run { FitsSpare table.now.homes step.old step.old.run }
    ensures last { IsNone result ↔ (2 ^ step.old.range.log ≤ step.old.next) }
    ensures page { IfSome result (λ copy. copy.page ≡ block_page step.old.range step.old.next) }
    ensures from { IfSome result (λ copy. physical_place table.now.homes table.now.outliers copy.page ≡ Some copy.from) }
    ensures to { IfSome result (λ copy. wanted_place table.now.homes step.old copy.page step.old.run ≡ Some copy.to) }
    ensures next { IfSome result (λ copy. step.new ≡ record step.old { next = step.old.next + 1 }) }
    ensures unchanged { IfNone result (step.new ≡ step.old) }
{
    if step.next >= pages_in(&step.range) {
        return None;
    }
    let page = page_at(&step.range, step.next);
    let Some(from) = table.place(page) else {
        unreachable!();
    };
    let Some(to) = target_of(step, table, page) else {
        unreachable!();
    };
    step.next += 1;
    Some(Copy1 { page, from, to })
}

/// Where a page of the block is to lie.
fn target_of(step: &Move, table: &Table, page: Page) -> Option<(u8, u32)>
    requires in_block { InRange step.now.range page }
    requires run { FitsSpare table.now.homes step.now step.now.run }
    ensures { result ≡ wanted_place table.now.homes step.now page step.now.run }
{
    match step.run {
        None => table.home(page),
        Some(first) => {
            let base = table.spare_base(step.memory) + first;
            Some((step.memory, base + (page.number - step.range.base)))
        }
    }
}
