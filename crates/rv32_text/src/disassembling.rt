//! The text of an image, item by item.

ghost use Rattle.std.specs.Prelude.{◌≡◌, ◌≤◌, ◌<◌, ◌*◌, ◌%◌, ◌++◌, length, Ok, IfOk, OnOk};
ghost use Rattle.rv32_text.specs.Image.{assembled, image_words};
ghost use Rattle.rv32_text.specs.Statement.{FitsItem};
ghost use Rattle.rv32_text.specs.Written.{item_of_word, word_line, disassembled};

use crate::images::first_word;
use crate::items::Item;
use crate::writing::{has_text, put_item};
use mind_base::NoMemory;
use rv32_decode::decode;
use std::alloc::Global;

/// The item that is written for a word: its instruction where that has a text, else the plain word.
#[tactic(auto, unfolding(crate::specs::Written::item_of_word, crate::specs::Statement::FitsItem))]
fn item_of(word: u32) -> Item
    ensures item { result ≡ item_of_word word }
    ensures fits { FitsItem result }
{
    match decode(word) {
        None => Item::Word(word),
        Some(instr) => {
            if has_text(&instr) {
                Item::Instr(instr)
            } else {
                Item::Word(word)
            }
        }
    }
}

fn put_line(alloc: Global, out: &mut Vec<u8>, word: u32) -> Result<(), NoMemory>
    ensures { OnOk result (out.new.items ≡ out.old.items ++ word_line word) }
{
    put_item(alloc, out, &item_of(word))?;
    out.extend_from_slice(b"\n")?;
    Ok(())
}

/// Writes a line for each word of an image: its instruction, or the plain word where none is spelled or
/// its text would not tell the whole of it.
pub fn disassemble(alloc: Global, image: &[u8]) -> Result<Vec<u8>, NoMemory>
    requires { length image.now % 4 ≡ 0 }
    ensures text { IfOk result (λ text. text.items ≡ disassembled (image_words image.now)) }
    ensures short { IfOk result (λ text. length text.items ≤ 20 * length image.now) }
    // The text is assembled to the same words.
    ensures again { IfOk result (λ text. 0 < length image.now → length image.now ≤ 65536 → assembled text.items ≡ Ok image.now) }
{
    let mut out = Vec::new(alloc);
    let mut rest = image;
    while rest.len() >= 4 {
        let (word, more) = first_word(rest);
        put_line(alloc, &mut out, word)?;
        rest = more;
    }
    Ok(out)
}
