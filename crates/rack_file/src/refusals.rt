//! Why a text is no rack, and the path of the key where.

ghost use Rattle.std.specs.Prelude.{◌≡◌, string_bytes};
ghost use Rattle.rack_file.specs.Judged.{GivesText, Says};
ghost use Rattle.rack_file.specs.Keys.{under, member_path, table_name};

use std::alloc::Global;
use std::marker::Model;

/// What is wrong in a rack file.
#[derive(Clone, Copy, Debug, PartialEq, Eq)]
pub enum RackFault {
    Toml,
    Missing,
    Kind,
    Limit,
    Unknown,
    Overlap,
    Unplaced,
    Slots,
}

/// Where in a rack file: names and numbers, counted from 0, with dots between them.
#[derive(Debug, Drop)]
pub struct Path(String);

impl Model for Path {
    ghost use Rattle.std.specs.Prelude.{ℕ, List, string_bytes};

    ghost Value = { List ℕ };

    ghost view = { λ p. string_bytes p.0 };
}

impl Path {
    pub(crate) fn from_text(text: String) -> Path
        ensures { result ≡ string_bytes text }
    {
        Path(text)
    }

    pub fn as_bytes(&self) -> &[u8]
        ensures { result.now ≡ self.now }
    {
        self.0.as_bytes()
    }
}

/// Why a rack file was not read: what is wrong, and where; or there was no memory.
#[derive(Debug, Drop)]
pub enum RackRefusal {
    Refused { what: RackFault, path: Path },
    NoMemory,
}

/// The path of a key in the table at a path, which is empty for the top table.
pub(crate) fn key_path(alloc: Global, path: &str, name: &str) -> Result<String, RackRefusal>
    ensures { GivesText result (under path.now name.now) }
{
    let mut text = String::new(alloc);
    if !path.is_empty() {
        if text.push_str(path).is_err() || text.push_str(".").is_err() {
            return Err(RackRefusal::NoMemory);
        }
    }
    match text.push_str(name) {
        Ok(()) => Ok(text),
        Err(_) => Err(RackRefusal::NoMemory),
    }
}

/// The path of an element of an array, counted from 0.
pub(crate) fn element_path(alloc: Global, path: &str, number: usize) -> Result<String, RackRefusal>
    ensures { GivesText result (member_path path.now number) }
{
    let digits = match format!(in alloc; "{number}") {
        Ok(digits) => digits,
        Err(_) => return Err(RackRefusal::NoMemory),
    };
    let mut text = String::new(alloc);
    if text.push_str(path).is_err() || text.push_str(".").is_err() {
        return Err(RackRefusal::NoMemory);
    }
    match text.push_str(digits.as_str()) {
        Ok(()) => Ok(text),
        Err(_) => Err(RackRefusal::NoMemory),
    }
}

/// A refusal at this path.
pub(crate) fn refused(alloc: Global, what: RackFault, path: &str) -> RackRefusal
    ensures { Says result (what, path.now) }
{
    match String::from_str(alloc, path) {
        Ok(text) => RackRefusal::Refused {
            what,
            path: Path(text),
        },
        Err(_) => RackRefusal::NoMemory,
    }
}

/// A refusal at the key of a table.
pub(crate) fn refused_key(alloc: Global, what: RackFault, path: &str, name: &str) -> RackRefusal
    ensures { Says result (what, under path.now name.now) }
{
    match key_path(alloc, path, name) {
        Ok(text) => RackRefusal::Refused {
            what,
            path: Path(text),
        },
        Err(_) => RackRefusal::NoMemory,
    }
}

/// A refusal at a table itself.
pub(crate) fn refused_table(alloc: Global, what: RackFault, path: &str) -> RackRefusal
    ensures { Says result (what, table_name path.now) }
{
    if path.is_empty() {
        refused(alloc, what, "top")
    } else {
        refused(alloc, what, path)
    }
}
