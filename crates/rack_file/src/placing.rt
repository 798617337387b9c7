//! What is known of runs of pages: whether they have a home, and whether they are mapped.
ghost use Rattle.std.specs.Prelude.{◌≡◌, ◌++◌, map, OnOk, IfOk};
ghost use Rattle.mind_base.specs.Fit.{all_homes};
ghost use Rattle.mind_base.specs.Permission.{permission_of};
ghost use Rattle.protect_table.specs.Protect.{permission_at, changed};
ghost use Rattle.control_plane.specs.Outcome.{are_unmapped, are_placed};
ghost use Rattle.rack_file.specs.Tables.{home_entry};

use control_plane::apply;
use mind_base::{Command, MapPlan, MemoryPlan, NoMemory, Page, Perm, Span};
use protect_table::Protect;
use range_translate::Table;
use std::alloc::Global;

fn add_entries(entries: &mut Vec<MapPlan>, homes: &[Span]) -> Result<(), NoMemory>
    ensures { OnOk result (entries.new.items ≡ entries.old.items ++ map home_entry homes.now) }
{
    for home in homes {
        entries.push(MapPlan {
            span: *home,
            perm: Perm::R,
        })?;
    }
    Ok(())
}

fn home_entries(alloc: Global, memories: &[MemoryPlan]) -> Result<Vec<MapPlan>, NoMemory>
    ensures { IfOk result (λ entries. entries.items ≡ map home_entry (all_homes memories.now)) }
{
    let mut entries = Vec::new(alloc);
    for memory in memories {
        add_entries(&mut entries, memory.homes.as_slice())?;
    }
    Ok(entries)
}

/// A table in which the pages with a home can be read, with room for any permissions.
pub(crate) fn homes_table(alloc: Global, memories: &[MemoryPlan]) -> Result<Protect, NoMemory>
    ensures permissions { IfOk result (λ table. permission_at table ≡ permission_of (map home_entry (all_homes memories.now))) }
    ensures slots { IfOk result (λ table. table.slots ≡ 4294967295) }
{
    let entries = home_entries(alloc, memories)?;
    match Protect::of(alloc, u32::MAX, entries.as_slice()) {
        Ok(table) => Ok(table),
        Err(e) => Err(e),
    }
}

/// Whether each page of the run has a home.
pub(crate) fn is_placed(homes: &Table, span: &Span) -> bool
    ensures { result ≡ are_placed homes.now.homes span.now }
{
    for n in 0..span.pages {
        let page = Page {
            domain: span.domain,
            number: span.base + n,
        };
        if homes.home(page).is_none() {
            return false;
        }
    }
    true
}

/// Whether no page of the run has a permission.
pub(crate) fn is_unmapped(mapped: &Protect, span: &Span) -> bool
    ensures { result ≡ are_unmapped (permission_at mapped.now) span.now }
{
    mapped.first_with(span).is_none()
}

/// Gives the pages of a run a permission, in a table that has room for any.
pub(crate) fn put(table: &mut Protect, span: &Span, perm: Perm) -> Result<(), NoMemory>
    requires { table.old.slots ≡ 4294967295 }
    ensures ok { OnOk result (permission_at table.new ≡ changed (permission_at table.old) span.now perm) }
    ensures slots { table.new.slots ≡ table.old.slots }
{
    let command = Command::Map { span: *span, perm };
    match apply(&command, table) {
        Ok(()) => Ok(()),
        Err(e) => Err(e),
    }
}
