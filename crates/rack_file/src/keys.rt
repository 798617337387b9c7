//! The value at a key, by its kind and its limits.

ghost use Rattle.std.specs.Prelude.{◌≡◌, ◌==◌, ◌≤◌, codes, string_bytes, Ok, Err, Some, None, IfOk, option_map, option_copied, nat_le, length, IsTrue};
ghost use Rattle.std.specs.List.{list_any};
ghost use Rattle.toml.specs.Data.{get_member, as_array, as_table};
ghost use Rattle.toml.specs.View.{view, table_view, items_view};
ghost use Rattle.rack_file.specs.Keys.{within, number_key, natural_judged, text_judged, key_judged, integer_at, kind_judged, array_judged, count, under};
ghost use Rattle.rack_file.specs.Judged.{GivesJudged, ReadsAs};

use crate::refusals::{RackFault, RackRefusal, refused, refused_key};
use std::alloc::Global;
use toml::{Table, Value};

/// The value at a key of a table.
pub(crate) fn member_at<'a>(table: &'a Table, key: &str) -> Option<&'a Value>
    ensures { option_map (λ value. view value.now) result ≡ get_member key.now (table_view table.now) }
{
    table.get(key)
}

/// The integer at a key of the table at a path; None where it is below 0.
pub(crate) fn natural_in(
    alloc: Global,
    path: &str,
    table: &Table,
    name: &str,
) -> Result<Option<u64>, RackRefusal>
    ensures { GivesJudged (λ n. n) result (natural_judged (under path.now name.now) (get_member name.now (table_view table.now))) }
{
    let value = match member_at(table, name) {
        Some(value) => value,
        None => return Err(refused_key(alloc, RackFault::Missing, path, name)),
    };
    match value.as_integer() {
        Some(n) => Ok(u64::try_from(n).ok()),
        None => Err(refused_key(alloc, RackFault::Kind, path, name)),
    }
}

/// The integer at a key, from `low` to `high`.
pub(crate) fn number_in(
    alloc: Global,
    path: &str,
    table: &Table,
    name: &str,
    low: u32,
    high: u32,
) -> Result<u32, RackRefusal>
    ensures reads { ReadsAs (λ n. n) result (key_judged path.now (table_view table.now) (number_key name.now low high)) (integer_at name.now (table_view table.now)) }
    ensures within { IfOk result (λ n. (low ≤ n) × (n ≤ high)) }
{
    match natural_in(alloc, path, table, name) {
        Err(e) => Err(e),
        Ok(Some(n)) => if n >= u64::from(low) && n <= u64::from(high) {
            Ok(n as u32)
        } else {
            Err(refused_key(alloc, RackFault::Limit, path, name))
        },
        Ok(None) => Err(refused_key(alloc, RackFault::Limit, path, name)),
    }
}

/// The text at a key.
pub(crate) fn text_in<'a>(
    alloc: Global,
    path: &str,
    table: &'a Table,
    name: &str,
) -> Result<&'a str, RackRefusal>
    ensures { GivesJudged (λ text. text.now) result (text_judged (under path.now name.now) (get_member name.now (table_view table.now))) }
{
    let value = match member_at(table, name) {
        Some(value) => value,
        None => return Err(refused_key(alloc, RackFault::Missing, path, name)),
    };
    match value.as_str() {
        Some(text) => Ok(text),
        None => Err(refused_key(alloc, RackFault::Kind, path, name)),
    }
}

/// The table that a value is.
pub(crate) fn table_in<'a>(
    alloc: Global,
    path: &str,
    value: &'a Value,
) -> Result<&'a Table, RackRefusal>
    ensures { GivesJudged (λ table. table_view table.now) result (kind_judged path.now (as_table (view value.now))) }
{
    match value.as_table() {
        Some(table) => Ok(table),
        None => Err(refused(alloc, RackFault::Kind, path)),
    }
}

fn has_count(values: &[Value], low: usize, high: usize) -> bool
    ensures count { result ≡ within low high (count (items_view values.now)) }
    ensures most { IsTrue result → length values.now ≤ high }
{
    is_within(values.len(), low, high)
}

fn is_within(n: usize, low: usize, high: usize) -> bool
    ensures count { result ≡ within low high n }
    ensures most { IsTrue result → n ≤ high }
{
    low <= n && n <= high
}

/// The array at a key, with `low` to `high` elements.
pub(crate) fn array_in<'a>(
    alloc: Global,
    path: &str,
    table: &'a Table,
    name: &str,
    low: usize,
    high: usize,
) -> Result<&'a [Value], RackRefusal>
    ensures most { IfOk result (λ values. length values.now ≤ high) }
    ensures array { GivesJudged (λ values. items_view values.now) result (array_judged (under path.now name.now) low high (get_member name.now (table_view table.now))) }
{
    let value = match member_at(table, name) {
        Some(value) => value,
        None => return Err(refused_key(alloc, RackFault::Missing, path, name)),
    };
    let array = match value.as_array() {
        Some(array) => array,
        None => return Err(refused_key(alloc, RackFault::Kind, path, name)),
    };
    let values = array.as_slice();
    if !has_count(values, low, high) {
        return Err(refused_key(alloc, RackFault::Limit, path, name));
    }
    Ok(values)
}
