//! The items of a text, line by line.

ghost use Rattle.std.specs.Prelude.{◌≡◌, ◌<◌, ◌≤◌, ◌^◌, [], length, IfOk, OnOk};
ghost use Rattle.std.specs.List.{AllByRecursion};
ghost use Rattle.std.specs.Str.Lines.{lines};
ghost use Rattle.plain_text.specs.Reading.{Gives};
ghost use Rattle.rv32_text.specs.Found.{found_in};
ghost use Rattle.rv32_text.specs.Statement.{FitsItem};
ghost use Rattle.rv32_text.specs.Meaning.{items_after_line, items_from};

use crate::faults::{TextFault, TextRefusal};
use crate::items::Item;
use crate::labels::Defined;
use crate::statements::item_of_line;
use plain_text::split_line;
use std::alloc::Global;
use std::collections::BTreeMap;

/// The most items of a text.
const MOST: usize = 16_384;

/// Puts the item of a line, which has this number, behind the others.
#[tactic(auto, unfolding(crate::specs::Meaning::items_after_line))]
fn add_line(
    items: &mut Vec<Item>,
    labels: &BTreeMap<&[u8], Defined>,
    line: u32,
    text: &[u8],
) -> Result<(), TextRefusal>
    requires few { length items.old.items ≤ 16384 }
    requires fit { AllByRecursion FitsItem items.old.items }
    requires short { length text.now < 2 ^ 32 }
    ensures added { Gives (λ _. items.new.items) result (items_after_line (found_in labels.now) line items.old.items text.now) }
    ensures few { OnOk result (length items.new.items ≤ 16384) }
    ensures fit { OnOk result (AllByRecursion FitsItem items.new.items) }
{
    match item_of_line(labels, line, items.len() as u32, text) {
        Err(what) => Err(TextRefusal::Refused { line, what }),
        Ok(None) => Ok(()),
        Ok(Some(item)) => {
            if items.len() >= MOST {
                let what = TextFault::Words;
                return Err(TextRefusal::Refused { line, what });
            }
            items.push(item)?;
            Ok(())
        }
    }
}

/// The items of the lines of a text.
pub fn items_in(
    alloc: Global,
    labels: &BTreeMap<&[u8], Defined>,
    text: &[u8],
) -> Result<Vec<Item>, TextRefusal>
    requires { length text.now < 2 ^ 32 }
    ensures exact { Gives (λ items. items.items) result (items_from (found_in labels.now) 1 [] (lines text.now)) }
    ensures few { IfOk result (λ items. length items.items ≤ 16384) }
    ensures fit { IfOk result (λ items. AllByRecursion FitsItem items.items) }
{
    let mut items = Vec::new(alloc);
    let mut line: u32 = 0;
    let mut rest = text;
    while !rest.is_empty() {
        line += 1;
        let (first, after) = split_line(rest);
        add_line(&mut items, labels, line, first)?;
        rest = after;
    }
    Ok(items)
}
