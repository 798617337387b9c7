//! The forms `asm` and `dis`: a text of instructions becomes an image, and an image a text.

ghost use Rattle.std.specs.Prelude.{◌≡◌, ◌≤◌, ◌%◌, ℕ, List, [], length, None};
ghost use Rattle.mind_base.specs.declared.notes.Note.{Note};
ghost use Rattle.rv32_text.specs.Image.{image_words};
ghost use Rattle.rv32_text.specs.Written.{disassembled};
ghost use Rattle.mind_top.specs.Words.{Asm, Dis};
ghost use Rattle.mind_top.specs.Ending.{KeepsOutside, StaysUnlessReadFault, WritesOnce, counts};
ghost use Rattle.mind_top.specs.Left.{Left};
ghost use Rattle.mind_top.specs.Parts.{SaysLine, Answers};

use crate::Status;
use crate::texts::{say, stop};
use mind_base::{NoMemory, Sink, Store};
use mind_inputs::{load_text, load_words};
use rv32_text::disassemble;
use std::alloc::Global;

/// Reads the text of this name and writes its image. Nothing is left of it.
pub fn answer_asm<S: Store, K: Sink>(
    alloc: Global,
    text: &str,
    store: &mut S,
    sink: &mut K,
) -> Status
    ensures outside { KeepsOutside (S.holds store.old) (S.holds store.new)
        (counts (S.faults store.old) (S.missed store.old) (K.faults sink.old)) (counts (S.faults store.new) (S.missed store.new) (K.faults sink.new)) }
    ensures steady { StaysUnlessReadFault (S.faults store.old) (S.faults store.new) (S.missed store.old) (S.missed store.new) result }
    ensures once { WritesOnce (K.writes sink.old) (K.writes sink.new) result }
    ensures answers { Answers (S.holds store.old) (Asm text.now) (record { log = []; end = None })
        (counts (S.faults store.old) (S.missed store.old) (K.faults sink.old)) (counts (S.faults store.new) (S.missed store.new) (K.faults sink.new))
        (K.written sink.old) (K.written sink.new) result }
{
    match load_text(alloc, store, text) {
        Ok(image) => say(sink, image.as_slice(), Status::Done),
        Err(stopped) => stop(alloc, &stopped, sink),
    }
}

/// Writes a line for each word of an image.
fn say_lines<K: Sink>(alloc: Global, image: &[u8], sink: &mut K) -> Status
    requires whole { length image.now % 4 ≡ 0 }
    ensures says { SaysLine (K.written sink.old) (K.written sink.new) (K.faults sink.old) (K.faults sink.new) (disassembled (image_words image.now)) Status.Done result }
    ensures once { WritesOnce (K.writes sink.old) (K.writes sink.new) result }
    ensures failed { K.faults sink.old ≤ K.faults sink.new }
{
    match disassemble(alloc, image) {
        Ok(text) => say(sink, text.as_slice(), Status::Done),
        Err(NoMemory) => Status::NoMemory,
    }
}

/// Reads the image of this name and writes its text. Nothing is left of it.
pub fn answer_dis<S: Store, K: Sink>(
    alloc: Global,
    image: &str,
    store: &mut S,
    sink: &mut K,
) -> Status
    ensures outside { KeepsOutside (S.holds store.old) (S.holds store.new)
        (counts (S.faults store.old) (S.missed store.old) (K.faults sink.old)) (counts (S.faults store.new) (S.missed store.new) (K.faults sink.new)) }
    ensures steady { StaysUnlessReadFault (S.faults store.old) (S.faults store.new) (S.missed store.old) (S.missed store.new) result }
    ensures once { WritesOnce (K.writes sink.old) (K.writes sink.new) result }
    ensures answers { Answers (S.holds store.old) (Dis image.now) (record { log = []; end = None })
        (counts (S.faults store.old) (S.missed store.old) (K.faults sink.old)) (counts (S.faults store.new) (S.missed store.new) (K.faults sink.new))
        (K.written sink.old) (K.written sink.new) result }
{
    match load_words(alloc, store, image) {
        Ok(words) => say_lines(alloc, words.as_slice(), sink),
        Err(stopped) => stop(alloc, &stopped, sink),
    }
}
