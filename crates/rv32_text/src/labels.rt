//! Labels: their names, and where they are defined.

ghost use Rattle.std.specs.Prelude.{◌≡◌, ℕ, ◌<◌, ◌≤◌, ◌^◌, List, length, OnOk, IfOk, Some, None, if◌then◌else◌};
ghost use Rattle.std.specs.Str.{bytes_eq};
ghost use Rattle.std.specs.Option.{option_or, option_copied};
ghost use Rattle.std.specs.List.{list_all};
ghost use Rattle.rv32_text.specs.Blank.{without_blanks_before};
ghost use Rattle.rv32_text.specs.Label.{before_comment, has_colon as has_colon_of, label_before as label_before_of, statement_of, items_on as items_on_line, is_label_byte as is_label_byte_of, is_label as is_label_of, label_defined, defined_on};
ghost use Rattle.rv32_text.specs.Found.{found_in};
ghost use Rattle.rv32_text.specs.Meaning.{labels_of};

use crate::blanks::{from_first, trimmed};
use crate::cuts::{before, behind};
use crate::names::register;
use mind_base::NoMemory;
use plain_text::{place_of, split_line};
use std::alloc::Global;
use std::collections::BTreeMap;

/// Where a label is defined: the number of its line, counted from 1, and how many items stand before it.
#[derive(Clone, Copy, Debug, PartialEq, Eq)]
pub struct Defined {
    pub line: u32,
    pub items: u32,
}

/// The line up to its comment.
pub fn code(line: &[u8]) -> &[u8]
    ensures part { result.now ≡ before_comment line.now }
    ensures short { length result.now ≤ length line.now }
{
    before(line, b'#')
}

/// Whether a label is to stand at the front.
pub fn has_colon(code: &[u8]) -> bool
    ensures { result ≡ has_colon_of code.now }
{
    place_of(code, b':') < code.len()
}

/// What stands for a label before the first colon.
pub fn label_before(code: &[u8]) -> &[u8]
    ensures { result.now ≡ label_before_of code.now }
{
    from_first(before(code, b':'))
}

/// What stands behind the label and its colon, or alone, without blanks at its ends.
#[tactic(auto, unfolding(crate::specs::Label::statement_of))]
pub fn statement(code: &[u8]) -> &[u8]
    ensures part { result.now ≡ statement_of code.now }
    ensures short { length result.now ≤ length code.now }
{
    if has_colon(code) {
        return trimmed(behind(code, b':'));
    }
    trimmed(code)
}

fn items_on(line: &[u8]) -> u32
    ensures count { result ≡ items_on_line line.now }
    ensures most { result ≤ 1 }
{
    if statement(code(line)).is_empty() {
        0
    } else {
        1
    }
}

fn is_label_byte(byte: u8) -> bool
    ensures { result ≡ is_label_byte_of byte }
{
    byte.is_ascii_alphanumeric() || byte == b'_' || byte == b'.'
}

fn all_label_bytes(text: &[u8]) -> bool
    ensures { result ≡ list_all is_label_byte_of text.now }
{
    text.iter().all(|b| is_label_byte(*b))
}

/// Whether a label is well formed.
#[tactic(auto, unfolding(crate::specs::Label::is_label))]
pub fn is_label(text: &[u8]) -> bool
    ensures { result ≡ is_label_of text.now }
{
    if text.is_empty() || text.len() > 32 || !all_label_bytes(text) {
        return false;
    }
    if text[0].is_ascii_digit() {
        return false;
    }
    register(text).is_none()
}

/// The label that a line defines.
#[tactic(auto, unfolding(crate::specs::Label::label_defined))]
fn label(line: &[u8]) -> Option<&[u8]>
    ensures { option_copied result ≡ label_defined line.now }
{
    let code = code(line);
    if !has_colon(code) {
        return None;
    }
    let name = label_before(code);
    if !is_label(name) {
        return None;
    }
    Some(name)
}

/// Adds a label, where none of its name is there.
fn add<'a>(
    labels: &mut BTreeMap<&'a [u8], Defined>,
    label: &'a [u8],
    place: Defined,
) -> Result<(), NoMemory>
    ensures { OnOk result ((name : List ℕ) → found_in labels.new name ≡ option_or (found_in labels.old name) (if bytes_eq name label.now then Some place else None)) }
{
    if labels.contains_key(label) {
        return Ok(());
    }
    labels.insert(label, place)?;
    Ok(())
}

/// Adds the label that a line defines, where none of its name is there.
fn define<'a>(
    labels: &mut BTreeMap<&'a [u8], Defined>,
    line: &'a [u8],
    place: Defined,
) -> Result<(), NoMemory>
    ensures { OnOk result ((name : List ℕ) → found_in labels.new name ≡ option_or (found_in labels.old name) (defined_on line.now place name)) }
{
    match label(line) {
        None => Ok(()),
        Some(label) => add(labels, label, place),
    }
}

/// Where each label of a text is defined first.
pub fn labels<'a>(alloc: Global, text: &'a [u8]) -> Result<BTreeMap<&'a [u8], Defined>, NoMemory>
    requires { length text.now < 2 ^ 32 }
    ensures { IfOk result (λ labels. (name : List ℕ) → found_in labels name ≡ labels_of text.now name) }
{
    let mut labels = BTreeMap::new(alloc);
    let mut line: u32 = 0;
    let mut items: u32 = 0;
    let mut rest = text;
    while !rest.is_empty() {
        line += 1;
        let (first, after) = split_line(rest);
        define(&mut labels, first, Defined { line, items })?;
        items += items_on(first);
        rest = after;
    }
    Ok(labels)
}

/// The first definition of a label.
pub fn found(labels: &BTreeMap<&[u8], Defined>, name: &[u8]) -> Option<Defined>
    ensures { result ≡ found_in labels.now name.now }
{
    labels.get(name).copied()
}
