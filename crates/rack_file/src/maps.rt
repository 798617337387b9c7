//! The runs of pages that are mapped from the start.

ghost use Rattle.std.specs.Prelude.{◌≡◌, ◌≤◌, [], codes, nat_le, length, All, IfOk};
ghost use Rattle.toml.specs.Data.{get_member};
ghost use Rattle.toml.specs.View.{view, table_view, items_view};
ghost use Rattle.mind_base.specs.Fit.{AreApart, all_homes};
ghost use Rattle.mind_base.specs.Permission.{permission_of};
ghost use Rattle.mind_base.specs.Cover.{cover_of};
ghost use Rattle.protect_table.specs.Protect.{permission_at};
ghost use Rattle.control_plane.specs.Outcome.{are_placed};
ghost use Rattle.rack_file.specs.Keys.{member_path, keys_judged, items_judged, optional_array_judged};
ghost use Rattle.rack_file.specs.Tables.{map_at, map_keys, map_judged, maps_judged, maps_within};
ghost use Rattle.rack_file.specs.Judged.{GivesJudged, ReadsAs};

use crate::keys::{array_in, member_at, table_in};
use crate::placing::{is_placed, is_unmapped, put};
use crate::refusals::{RackFault, RackRefusal, element_path, refused};
use crate::sections::{Section, check_known};
use crate::tables::{perm_in, span_in};
use mind_base::{MapPlan, MemoryPlan, Sequence};
use protect_table::Protect;
use std::alloc::Global;
use toml::{Table, Value};

/// The keys of a map's table.
fn map_from(alloc: Global, path: &str, table: &Table) -> Result<MapPlan, RackRefusal>
    ensures { ReadsAs (λ entry. entry) result (keys_judged path.now (table_view table.now) map_keys) (map_at (table_view table.now)) }
{
    let span = span_in(alloc, path, table)?;
    let perm = perm_in(alloc, path, table)?;
    Ok(MapPlan { span, perm })
}

/// The map that a value describes, where these pages have a home and those are mapped.
fn map_in(
    alloc: Global,
    path: &str,
    value: &Value,
    homes: &range_translate::Table,
    mapped: &Protect,
) -> Result<MapPlan, RackRefusal>
    ensures { GivesJudged (λ entry. entry) result (map_judged (are_placed homes.now.homes) (permission_at mapped.now) path.now (view value.now)) }
{
    let table = table_in(alloc, path, value)?;
    let entry = map_from(alloc, path, table)?;
    check_known(alloc, Section::Map, path, table)?;
    if !is_placed(homes, &entry.span) {
        return Err(refused(alloc, RackFault::Unplaced, path));
    }
    if !is_unmapped(mapped, &entry.span) {
        return Err(refused(alloc, RackFault::Overlap, path));
    }
    Ok(entry)
}

/// The next map behind these, which the table has.
fn next_map(
    alloc: Global,
    value: &Value,
    maps: &Sequence<MapPlan>,
    homes: &range_translate::Table,
    mapped: &Protect,
) -> Result<MapPlan, RackRefusal>
    requires { permission_at mapped.now ≡ permission_of maps.now }
    ensures { GivesJudged (λ entry. entry) result (map_judged (are_placed homes.now.homes) (permission_of maps.now) (member_path (codes "map") (length maps.now)) (view value.now)) }
{
    let place = element_path(alloc, "map", maps.len())?;
    map_in(alloc, place.as_str(), value, homes, mapped)
}

/// The maps of an array, and how many blocks they take.
#[derive(Drop)]
struct Mapped {
    maps: Sequence<MapPlan>,
    cover: u32,
}

fn maps_of(
    alloc: Global,
    values: &[Value],
    homes: &range_translate::Table,
) -> Result<Mapped, RackRefusal>
    ensures maps { GivesJudged (λ mapped. mapped.maps) result (items_judged (λ done. map_judged (are_placed homes.now.homes) (permission_of done)) (codes "map") [] (items_view values.now)) }
    ensures cover { IfOk result (λ mapped. mapped.cover ≡ cover_of (permission_of mapped.maps)) }
{
    let mut maps = Sequence::new(alloc);
    let mut table = match Protect::of(alloc, u32::MAX, &[]) {
        Ok(table) => table,
        Err(_) => return Err(RackRefusal::NoMemory),
    };
    for value in values {
        let entry = match next_map(alloc, value, &maps, homes, &table) {
            Ok(entry) => entry,
            Err(e) => return Err(e),
        };
        match put(&mut table, &entry.span, entry.perm) {
            Ok(()) => {}
            Err(_) => return Err(RackRefusal::NoMemory),
        }
        match maps.push(entry) {
            Ok(()) => {}
            Err(_) => return Err(RackRefusal::NoMemory),
        }
    }
    let cover = table.cover();
    Ok(Mapped { maps, cover })
}

fn map_values<'a>(alloc: Global, document: &'a Table) -> Result<&'a [Value], RackRefusal>
    ensures { GivesJudged (λ values. items_view values.now) result (optional_array_judged (codes "map") 0 256 (get_member (codes "map") (table_view document.now))) }
{
    match member_at(document, "map") {
        Some(_) => array_in(alloc, "", document, "map", 0, 256),
        None => Ok(&[]),
    }
}

/// The maps of an array, which take at most `most` blocks.
fn maps_within(
    alloc: Global,
    values: &[Value],
    homes: &range_translate::Table,
    most: u32,
) -> Result<Sequence<MapPlan>, RackRefusal>
    ensures { GivesJudged (λ maps. maps) result (maps_within (are_placed homes.now.homes) most (items_view values.now)) }
{
    let mapped = maps_of(alloc, values, homes)?;
    if mapped.cover > most {
        return Err(refused(alloc, RackFault::Slots, "map"));
    }
    let Mapped { maps, cover: _ } = mapped;
    Ok(maps)
}

/// The maps of a rack with these homes, which take at most `most` blocks.
pub(crate) fn maps_in(
    alloc: Global,
    document: &Table,
    memories: &[MemoryPlan],
    most: u32,
) -> Result<Sequence<MapPlan>, RackRefusal>
    requires apart { AreApart (all_homes memories.now) }
    requires few { length memories.now ≤ 8 }
    requires spare { All (λ memory. memory.spare ≤ 4096) memories.now }
    ensures { GivesJudged (λ maps. maps) result (maps_judged (are_placed memories.now) most (table_view document.now)) }
{
    let values = map_values(alloc, document)?;
    let homes = match range_translate::Table::new(alloc, memories, 0) {
        Ok(homes) => homes,
        Err(_) => return Err(RackRefusal::NoMemory),
    };
    maps_within(alloc, values, &homes, most)
}
