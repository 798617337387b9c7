//! The bytes of an image, from its words and back.

ghost use Rattle.std.specs.Prelude.{◌≡◌, ◌<◌, ◌≤◌, ◌^◌, ◌∷◌, ◌++◌, length, drop, IfOk, OnOk};
ghost use Rattle.std.specs.List.{AllByRecursion};
ghost use Rattle.rv32_text.specs.Image.{item_word, item_bytes, image_of, image_words};
ghost use Rattle.rv32_text.specs.Statement.{FitsItem};

use crate::items::Item;
use mind_base::NoMemory;
use rv32_decode::encode;
use std::alloc::Global;

/// The word of an item.
#[tactic(auto, unfolding(crate::specs::Statement::FitsItem))]
fn word_of(item: &Item) -> u32
    requires { FitsItem item.now }
    ensures { result ≡ item_word item.now }
{
    match item {
        Item::Instr(instr) => encode(instr),
        Item::Word(word) => *word,
    }
}

/// Puts the word of an item behind the others.
fn put_word(image: &mut Vec<u8>, item: &Item) -> Result<(), NoMemory>
    requires { FitsItem item.now }
    ensures { OnOk result (image.new.items ≡ image.old.items ++ item_bytes item.now) }
{
    image.extend_from_slice(&word_of(item).to_le_bytes())?;
    Ok(())
}

/// The words of items, little-endian, one behind the other.
#[tactic(auto, unfolding(crate::specs::Image::image_of))]
pub fn image(alloc: Global, items: &[Item]) -> Result<Vec<u8>, NoMemory>
    requires { AllByRecursion FitsItem items.now }
    ensures { IfOk result (λ image. image.items ≡ image_of items.now) }
{
    let mut image = Vec::new(alloc);
    for item in items {
        put_word(&mut image, item)?;
    }
    Ok(image)
}

/// The first word of an image, and the rest.
pub fn first_word(image: &[u8]) -> (u32, &[u8])
    requires { 4 ≤ length image.now }
    ensures words { image_words image.now ≡ result.0 ∷ image_words result.1.now }
    ensures rest { result.1.now ≡ drop 4 image.now }
{
    let word = u32::from_le_bytes([image[0], image[1], image[2], image[3]]);
    (word, &image[4..])
}
