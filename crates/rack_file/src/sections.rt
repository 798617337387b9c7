//! The keys that each table may have.

ghost use Rattle.std.specs.Prelude.{◌≡◌, ◌||◌};
ghost use Rattle.std.specs.List.{list_any};
ghost use Rattle.std.specs.Str.{bytes_eq};
ghost use Rattle.toml.specs.View.{table_view};
ghost use Rattle.rack_file.specs.Keys.{has_no_other_key, known_judged, names_of};
ghost use Rattle.rack_file.specs.Tables.{top_keys, array_names, names_in};
ghost use Rattle.rack_file.specs.Judged.{GivesJudged};

use crate::refusals::{RackFault, RackRefusal, refused_table};
use std::alloc::Global;
use toml::Table;

/// The kinds of table in a rack file.
#[derive(Clone, Copy, Debug, PartialEq, Eq)]
pub(crate) enum Section {
    Top,
    Blade,
    Memory,
    Home,
    Image,
    Thread,
    Map,
}

fn is_setting_key(key: &str) -> bool
    ensures { result ≡ list_any (λ name. bytes_eq key.now name) (names_of top_keys) }
{
    key == "format"
        || key == "slots"
        || key == "protect"
        || key == "outliers"
        || key == "region"
        || key == "most"
        || key == "threshold"
        || key == "policy"
}

fn is_array_key(key: &str) -> bool
    ensures { result ≡ list_any (λ name. bytes_eq key.now name) array_names }
{
    key == "blade" || key == "memory" || key == "image" || key == "thread" || key == "map"
}

fn is_setting_or_array_key(key: &str) -> bool
    ensures { result ≡ (list_any (λ name. bytes_eq key.now name) (names_of top_keys) || list_any (λ name. bytes_eq key.now name) array_names) }
{
    is_setting_key(key) || is_array_key(key)
}

fn is_top_key(key: &str) -> bool
    ensures { result ≡ list_any (λ name. bytes_eq key.now name) (names_in Section.Top) }
{
    is_setting_or_array_key(key)
}

fn is_memory_key(key: &str) -> bool
    ensures { result ≡ list_any (λ name. bytes_eq key.now name) (names_in Section.Memory) }
{
    key == "spare" || key == "homes"
}

fn is_home_key(key: &str) -> bool
    ensures { result ≡ list_any (λ name. bytes_eq key.now name) (names_in Section.Home) }
{
    key == "domain" || key == "page" || key == "pages"
}

fn is_image_key(key: &str) -> bool
    ensures { result ≡ list_any (λ name. bytes_eq key.now name) (names_in Section.Image) }
{
    key == "name" || key == "at"
}

fn is_thread_key(key: &str) -> bool
    ensures { result ≡ list_any (λ name. bytes_eq key.now name) (names_in Section.Thread) }
{
    key == "blade" || key == "domain" || key == "image" || key == "queue"
}

fn is_map_key(key: &str) -> bool
    ensures { result ≡ list_any (λ name. bytes_eq key.now name) (names_in Section.Map) }
{
    key == "domain" || key == "page" || key == "pages" || key == "perm"
}

fn is_known(section: Section, key: &str) -> bool
    ensures { result ≡ list_any (λ name. bytes_eq key.now name) (names_in section) }
{
    match section {
        Section::Top => is_top_key(key),
        Section::Blade => key == "frames",
        Section::Memory => is_memory_key(key),
        Section::Home => is_home_key(key),
        Section::Image => is_image_key(key),
        Section::Thread => is_thread_key(key),
        Section::Map => is_map_key(key),
    }
}

fn has_only(section: Section, table: &Table) -> bool
    ensures { result ≡ has_no_other_key (names_in section) (table_view table.now) }
{
    for (key, _value) in table.iter() {
        if !is_known(section, key.as_str()) {
            return false;
        }
    }
    true
}

/// Refuses a table that has other keys than those of its kind.
pub(crate) fn check_known(
    alloc: Global,
    section: Section,
    path: &str,
    table: &Table,
) -> Result<(), RackRefusal>
    ensures { GivesJudged (λ done. done) result (known_judged path.now (table_view table.now) (names_in section)) }
{
    if has_only(section, table) {
        Ok(())
    } else {
        Err(refused_table(alloc, RackFault::Unknown, path))
    }
}
