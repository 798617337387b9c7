//! A text of instructions, and an image: each is read and judged alone.

ghost use Rattle.std.specs.Prelude.{◌≡◌, ◌≤◌, ◌%◌, length, IfOk};
ghost use Rattle.rack_file.specs.Images.{is_image_length};
ghost use Rattle.mind_inputs.specs.Inputs.{Bytes, JudgesOne};
ghost use Rattle.mind_inputs.specs.Judged.{GivesEnding};
ghost use Rattle.mind_inputs.specs.Loading.{Brings};
ghost use Rattle.mind_inputs.specs.Texts.{text_seen_judged, words_seen_judged};

use crate::loading::{IMAGE_BYTES, refused, stopped_by};
use crate::{Refusal, Stopped};
use mind_base::{Sequence, Store};
use rv32_text::{TextRefusal, assemble};
use std::alloc::Global;

/// The greatest length of a text of instructions, in bytes.
const TEXT_BYTES: u64 = 4194304;

fn image_from_text(alloc: Global, bytes: &[u8]) -> Result<Sequence<u8>, Stopped>
    requires { length bytes.now ≤ 4194304 }
    ensures { GivesEnding result (text_seen_judged (Bytes bytes.now)) }
{
    match assemble(alloc, bytes) {
        Ok(image) => Ok(Sequence::from_vec(image)),
        Err(TextRefusal::Refused { line, what }) => refused(Refusal::TextRefused { line, what }),
        Err(TextRefusal::NoMemory) => Err(Stopped::NoMemory),
    }
}

fn is_length(length: usize) -> bool
    ensures { result ≡ is_image_length length }
{
    4 <= length && length <= 65536 && length % 4 == 0
}

fn words_from(bytes: Vec<u8>) -> Result<Sequence<u8>, Stopped>
    ensures judged { GivesEnding result (words_seen_judged (Bytes bytes.items)) }
    ensures whole { IfOk result (λ image. length image % 4 ≡ 0) }
{
    if is_length(bytes.len()) {
        Ok(Sequence::from_vec(bytes))
    } else {
        refused(Refusal::ImageLength { number: 0 })
    }
}

/// Reads the text of this name and assembles it: the words of its image, one behind the other, little-endian.
pub fn load_text<S: Store>(
    alloc: Global,
    store: &mut S,
    name: &str,
) -> Result<Sequence<u8>, Stopped>
    // The store holds what it held, and its counts never fall.
    ensures keeps { S.holds store.new ≡ S.holds store.old }
    ensures faults { S.faults store.old ≤ S.faults store.new }
    ensures missed { S.missed store.old ≤ S.missed store.new }

    // The image is that of the text; or it is refused exactly as it is judged.
    ensures brings { Brings (S.holds store.old) (JudgesOne (S.holds store.old) name.now 4194304 text_seen_judged)
        (S.faults store.old) (S.faults store.new) (S.missed store.old) (S.missed store.new) result }
{
    match store.read_all(alloc, name, TEXT_BYTES) {
        Ok(bytes) => image_from_text(alloc, bytes.as_slice()),
        Err(error) => Err(stopped_by(error, Refusal::TextLong)),
    }
}

/// Reads the bytes of the image of this name. It has 4 to 65,536 bytes, a multiple of 4.
pub fn load_words<S: Store>(
    alloc: Global,
    store: &mut S,
    name: &str,
) -> Result<Sequence<u8>, Stopped>
    // The store holds what it held, and its counts never fall.
    ensures keeps { S.holds store.new ≡ S.holds store.old }
    ensures faults { S.faults store.old ≤ S.faults store.new }
    ensures missed { S.missed store.old ≤ S.missed store.new }

    // The bytes are those of an image; or they are refused exactly as they are judged.
    ensures brings { Brings (S.holds store.old) (JudgesOne (S.holds store.old) name.now 65536 words_seen_judged)
        (S.faults store.old) (S.faults store.new) (S.missed store.old) (S.missed store.new) result }
    ensures whole { IfOk result (λ image. length image % 4 ≡ 0) }
{
    match store.read_all(alloc, name, IMAGE_BYTES) {
        Ok(bytes) => words_from(bytes),
        Err(error) => Err(stopped_by(error, Refusal::ImageLong { number: 0 })),
    }
}
