//! What a hart comes upon at its pc.

ghost use Rattle.std.specs.Prelude.{◌≡◌};
ghost use Rattle.rv32_decode.specs.Instr.{instr_of};
ghost use Rattle.hart_effect.specs.Deed.{word_at, found, found_word, found_instr, AsksWellFormed};

use hart_core::{Act, Regs, act};
use mind_base::Image;
use rv32_decode::decode;

/// What a thread comes upon at its pc: nothing of its image, a word that spells no instruction, or what
/// an instruction asks.
#[derive(Clone, Copy, Debug, PartialEq, Eq)]
pub enum Found {
    Outside,
    Unknown { word: u32 },
    Asks { asked: Act },
}

/// The word at a pc, little-endian, if its four bytes are wholly inside the image.
fn fetch(image: &Image, pc: u32) -> Option<u32>
    ensures { result ≡ word_at image.now pc }
{
    let bytes = image.bytes.as_slice();
    let first = pc as usize;
    let at = image.at as usize;
    if first < at || first + 4 > at + bytes.len() {
        return None;
    }
    let start = first - at;
    Some(u32::from_le_bytes([
        bytes[start],
        bytes[start + 1],
        bytes[start + 2],
        bytes[start + 3],
    ]))
}

fn find_instr(word: u32, regs: &Regs, pc: u32) -> Found
    ensures found { result ≡ found_instr (instr_of word) word regs.now pc }
    ensures well_formed { AsksWellFormed result }
{
    match decode(word) {
        None => Found::Unknown { word },
        Some(instr) => Found::Asks {
            asked: act(&instr, regs, pc),
        },
    }
}

/// What stands at a pc of an image, for a thread with these registers.
pub fn find(image: &Image, regs: &Regs, pc: u32) -> Found
    ensures found { result ≡ found image.now regs.now pc }
    ensures well_formed { AsksWellFormed result }
{
    match fetch(image, pc) {
        None => Found::Outside,
        Some(word) => find_instr(word, regs, pc),
    }
}
