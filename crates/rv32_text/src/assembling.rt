//! The image of a text of instructions.

ghost use Rattle.std.specs.Prelude.{◌≡◌, ℕ, ◌<◌, ◌^◌, List, length, IfOk};
ghost use Rattle.std.specs.List.{AllByRecursion};
ghost use Rattle.plain_text.specs.Reading.{Gives};
ghost use Rattle.rv32_text.specs.Found.{found_in};
ghost use Rattle.rv32_text.specs.Statement.{FitsItem};
ghost use Rattle.rv32_text.specs.Meaning.{labels_of};
ghost use Rattle.rv32_text.specs.Image.{assembled, encoded_items, IsImageOf};

use crate::faults::{TextFault, TextRefusal};
use crate::images::image;
use crate::items::Item;
use crate::labels::{Defined, labels};
use crate::reading::items_in;
use std::alloc::Global;
use std::collections::BTreeMap;

/// The image of items, of which there is at least one.
#[tactic(auto, unfolding(crate::specs::Image::encoded_items, crate::specs::Meaning::some_item))]
fn encoded(alloc: Global, items: &[Item]) -> Result<Vec<u8>, TextRefusal>
    requires { AllByRecursion FitsItem items.now }
    ensures { Gives (λ image. image.items) result (encoded_items items.now) }
{
    if items.is_empty() {
        return Err(TextRefusal::Refused {
            line: 0,
            what: TextFault::Empty,
        });
    }
    let image = image(alloc, items)?;
    Ok(image)
}

/// The image of a text whose labels these are.
fn assembled_with(
    alloc: Global,
    labels: &BTreeMap<&[u8], Defined>,
    text: &[u8],
) -> Result<Vec<u8>, TextRefusal>
    requires short { length text.now < 2 ^ 32 }
    requires labels { (name : List ℕ) → found_in labels.now name ≡ labels_of text.now name }
    ensures exact { Gives (λ image. image.items) result (assembled text.now) }
    ensures image { IfOk result (λ image. IsImageOf text.now image.items) }
{
    match items_in(alloc, labels, text) {
        Err(refusal) => Err(refusal),
        Ok(items) => encoded(alloc, &items),
    }
}

/// Assembles a text: the words of its items, one behind the other, little-endian. Lines end with LF or with
/// CR and LF; the last end may be missing. The first line with a fault is refused.
pub fn assemble(alloc: Global, text: &[u8]) -> Result<Vec<u8>, TextRefusal>
    requires { length text.now < 2 ^ 32 }
    // The image of the text, or its first fault, unless memory runs out.
    ensures exact { Gives (λ image. image.items) result (assembled text.now) }
    // One word for each item of the text's meaning, which decodes to the item or is its plain word.
    ensures image { IfOk result (λ image. IsImageOf text.now image.items) }
{
    let labels = labels(alloc, text)?;
    assembled_with(alloc, &labels, text)
}
