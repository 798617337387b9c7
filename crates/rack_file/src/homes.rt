//! The memory blades and their homes.

ghost use Rattle.std.specs.Prelude.{◌≡◌, ◌++◌, [], codes, nat_le, length};
ghost use Rattle.toml.specs.View.{view, table_view, items_view};
ghost use Rattle.mind_base.specs.Fit.{all_homes};
ghost use Rattle.protect_table.specs.Protect.{permission_at};
ghost use Rattle.control_plane.specs.Outcome.{are_unmapped};
ghost use Rattle.rack_file.specs.Keys.{member_path, items_judged};
ghost use Rattle.rack_file.specs.Tables.{is_apart, home_judged, homes_judged, memory_judged, memories_judged, all_home_pages, page_count, left_after};
ghost use Rattle.rack_file.specs.Judged.{GivesJudged};

use crate::keys::{array_in, number_in, table_in};
use crate::placing::{homes_table, is_unmapped, put};
use crate::refusals::{RackFault, RackRefusal, element_path, key_path, refused};
use crate::sections::{Section, check_known};
use crate::tables::span_in;
use mind_base::{MemoryPlan, Perm, Sequence, Span};
use protect_table::Protect;
use std::alloc::Global;
use toml::{Table, Value};

/// The home that a value describes, where the table has the earlier ones.
fn home_in(alloc: Global, path: &str, value: &Value, homes: &Protect) -> Result<Span, RackRefusal>
    ensures { GivesJudged (λ span. span) result (home_judged (are_unmapped (permission_at homes.now)) path.now (view value.now)) }
{
    let table = table_in(alloc, path, value)?;
    let span = span_in(alloc, path, table)?;
    check_known(alloc, Section::Home, path, table)?;
    if is_unmapped(homes, &span) {
        Ok(span)
    } else {
        Err(refused(alloc, RackFault::Overlap, path))
    }
}

/// The next home of an array at a path, where the table has these and the earlier ones.
fn next_home(
    alloc: Global,
    path: &str,
    value: &Value,
    homes: &Sequence<Span>,
    table: &Protect,
) -> Result<Span, RackRefusal>
    ensures { GivesJudged (λ span. span) result (home_judged (are_unmapped (permission_at table.now)) (member_path path.now (length homes.now)) (view value.now)) }
{
    let place = element_path(alloc, path, homes.len())?;
    home_in(alloc, place.as_str(), value, table)
}

/// The homes of an array at a path, behind those of these memory blades.
fn homes_of(
    alloc: Global,
    path: &str,
    values: &[Value],
    memories: &[MemoryPlan],
) -> Result<Sequence<Span>, RackRefusal>
    ensures { GivesJudged (λ homes. homes) result (items_judged (λ done. home_judged (is_apart (all_homes memories.now ++ done))) path.now [] (items_view values.now)) }
{
    let mut homes = Sequence::new(alloc);
    let mut table = match homes_table(alloc, memories) {
        Ok(table) => table,
        Err(_) => return Err(RackRefusal::NoMemory),
    };
    for value in values {
        let home = match next_home(alloc, path, value, &homes, &table) {
            Ok(home) => home,
            Err(e) => return Err(e),
        };
        match put(&mut table, &home, Perm::R) {
            Ok(()) => {}
            Err(_) => return Err(RackRefusal::NoMemory),
        }
        match homes.push(home) {
            Ok(()) => {}
            Err(_) => return Err(RackRefusal::NoMemory),
        }
    }
    Ok(homes)
}

fn homes_in(
    alloc: Global,
    path: &str,
    table: &Table,
    memories: &[MemoryPlan],
) -> Result<Sequence<Span>, RackRefusal>
    ensures { GivesJudged (λ homes. homes) result (homes_judged (all_homes memories.now) path.now (table_view table.now)) }
{
    let values = array_in(alloc, path, table, "homes", 1, 16)?;
    let place = key_path(alloc, path, "homes")?;
    homes_of(alloc, place.as_str(), values, memories)
}

/// The memory blade that a value describes, behind these.
fn memory_in(
    alloc: Global,
    path: &str,
    value: &Value,
    memories: &[MemoryPlan],
) -> Result<MemoryPlan, RackRefusal>
    ensures { GivesJudged (λ memory. memory) result (memory_judged memories.now path.now (view value.now)) }
{
    let table = table_in(alloc, path, value)?;
    let spare = number_in(alloc, path, table, "spare", 0, 4096)?;
    let homes = homes_in(alloc, path, table, memories)?;
    check_known(alloc, Section::Memory, path, table)?;
    Ok(MemoryPlan { homes, spare })
}

fn next_memory(
    alloc: Global,
    value: &Value,
    memories: &Sequence<MemoryPlan>,
) -> Result<MemoryPlan, RackRefusal>
    ensures { GivesJudged (λ memory. memory) result (memory_judged memories.now (member_path (codes "memory") (length memories.now)) (view value.now)) }
{
    let place = element_path(alloc, "memory", memories.len())?;
    memory_in(alloc, place.as_str(), value, memories.as_slice())
}

fn memories_of(alloc: Global, values: &[Value]) -> Result<Sequence<MemoryPlan>, RackRefusal>
    ensures { GivesJudged (λ memories. memories) result (items_judged memory_judged (codes "memory") [] (items_view values.now)) }
{
    let mut memories = Sequence::new(alloc);
    for value in values {
        let memory = next_memory(alloc, value, &memories)?;
        if memories.push(memory).is_err() {
            return Err(RackRefusal::NoMemory);
        }
    }
    Ok(memories)
}

/// What is left of a number of pages without those of these runs. None exactly where they have more.
fn left_by(pages: u32, spans: &[Span]) -> Option<u32>
    ensures { result ≡ left_after pages (page_count spans.now) }
{
    let mut left = pages;
    for span in spans {
        let taken = span.pages;
        if taken > left {
            return None;
        }
        left -= taken;
    }
    Some(left)
}

/// Whether all homes together have at most so many pages.
fn has_room(pages: u32, memories: &[MemoryPlan]) -> bool
    ensures { result ≡ nat_le (all_home_pages memories.now) pages }
{
    let mut left = pages;
    for memory in memories {
        match left_by(left, memory.homes.as_slice()) {
            Some(rest) => left = rest,
            None => return false,
        }
    }
    true
}

/// The memory blades of a rack.
pub(crate) fn memories_in(
    alloc: Global,
    document: &Table,
) -> Result<Sequence<MemoryPlan>, RackRefusal>
    ensures { GivesJudged (λ memories. memories) result (memories_judged (table_view document.now)) }
{
    let values = array_in(alloc, "", document, "memory", 1, 8)?;
    let memories = memories_of(alloc, values)?;
    if has_room(16384, memories.as_slice()) {
        Ok(memories)
    } else {
        Err(refused(alloc, RackFault::Limit, "memory"))
    }
}
