//! One drawn line: its event and its text.

ghost use Rattle.std.specs.Prelude.{◌≡◌, ◌++◌, ◌∷◌, [], ◌%◌, ◌<◌, ◌≤◌, codes, length, OnOk};
ghost use Rattle.std.specs.Fmt.{decimal};
ghost use Rattle.rack_gen.specs.Draw.{draw, drawn_state};
ghost use Rattle.rack_gen.specs.Line.{wire_at, line_at, draws_of, event_of, word_of, line_text, spaced};
ghost use Rattle.rack_gen.specs.Wire.{wire_name};

use crate::draws::Generator;
use crate::wires::{Wire, put_name};
use mind_base::{Event, NoMemory};
use plain_text::put_decimal;
use schedule_text::{Fate, befalls};
use std::alloc::Global;

/// What a line of a generated schedule says.
#[derive(Clone, Copy, Debug, PartialEq, Eq)]
pub enum Line {
    Step { hart: u8 },
    Drain { hart: u8 },
    Frame { fate: Fate, wire: Wire, k: u32 },
    Epoch,
    Settle,
}

/// Draws a line, for so many threads and these wires.
#[tactic(auto, unfolding(crate::specs::Line::line_at))]
pub fn draw_line(generator: &mut Generator, threads: u8, wires: &[Wire]) -> Line
    requires threads { 0 < threads }
    requires some { 0 < length wires.now }
    requires few { length wires.now ≤ 64 }
    ensures line { result ≡ line_at threads wires.now generator.old.state }
    ensures state { generator.new.state ≡ drawn_state (draws_of result) generator.old.state }
{
    match generator.next() % 16 {
        0..=7 => Line::Step {
            hart: draw_hart(generator, threads),
        },
        8..=10 => Line::Drain {
            hart: draw_hart(generator, threads),
        },
        11..=12 => draw_frame(generator, Fate::Deliver, wires),
        13 => draw_frame(generator, Fate::Lose, wires),
        14 => draw_frame(generator, Fate::Repeat, wires),
        _ => if generator.next() % 4 == 0 {
            Line::Epoch
        } else {
            Line::Settle
        },
    }
}

fn draw_hart(generator: &mut Generator, threads: u8) -> u8
    requires { 0 < threads }
    ensures hart { result ≡ draw 1 generator.old.state % threads }
    ensures state { generator.new.state ≡ drawn_state 1 generator.old.state }
{
    (generator.next() % u32::from(threads)) as u8
}

fn draw_frame(generator: &mut Generator, fate: Fate, wires: &[Wire]) -> Line
    requires some { 0 < length wires.now }
    requires few { length wires.now ≤ 64 }
    ensures line { result ≡ Line.Frame fate (wire_at wires.now (draw 1 generator.old.state)) (draw 2 generator.old.state % 4) }
    ensures state { generator.new.state ≡ drawn_state 2 generator.old.state }
{
    let wire = wires[generator.next() as usize % wires.len()];
    let k = generator.next() % 4;
    Line::Frame { fate, wire, k }
}

/// The event that a line stands for.
pub fn event(line: Line) -> Event
    ensures { result ≡ event_of line }
{
    match line {
        Line::Step { hart } => Event::Step { hart },
        Line::Drain { hart } => Event::Drain { hart },
        Line::Frame { fate, wire, k } => befalls(fate, wire.link, wire.side, k),
        Line::Epoch => Event::Epoch,
        Line::Settle => Event::Settle,
    }
}

/// The text of a line, with its end.
pub fn put_line(alloc: Global, out: &mut Vec<u8>, line: Line) -> Result<(), NoMemory>
    ensures { OnOk result (out.new.items ≡ out.old.items ++ line_text line) }
{
    match line {
        Line::Step { hart } => put_of_hart(alloc, out, b"step", hart),
        Line::Drain { hart } => put_of_hart(alloc, out, b"drain", hart),
        Line::Frame { fate, wire, k } => put_of_frame(alloc, out, word(fate), wire, k),
        Line::Epoch => put_alone(out, b"epoch"),
        Line::Settle => put_alone(out, b"settle"),
    }
}

/// The word that a line of a frame begins with.
fn word(fate: Fate) -> &'static [u8]
    ensures { result.now ≡ word_of fate }
{
    match fate {
        Fate::Deliver => b"deliver",
        Fate::Lose => b"lose",
        Fate::Repeat => b"repeat",
    }
}

fn put_of_hart(alloc: Global, out: &mut Vec<u8>, word: &[u8], hart: u8) -> Result<(), NoMemory>
    ensures { OnOk result (out.new.items ≡ out.old.items ++ (spaced (word.now ∷ decimal hart ∷ []) ++ codes "\n")) }
{
    out.extend_from_slice(word)?;
    out.extend_from_slice(b" ")?;
    put_decimal(alloc, out, u64::from(hart))?;
    out.extend_from_slice(b"\n")?;
    Ok(())
}

fn put_of_frame(
    alloc: Global,
    out: &mut Vec<u8>,
    word: &[u8],
    wire: Wire,
    k: u32,
) -> Result<(), NoMemory>
    ensures { OnOk result (out.new.items ≡ out.old.items ++ (spaced (word.now ∷ wire_name wire ∷ decimal k ∷ []) ++ codes "\n")) }
{
    out.extend_from_slice(word)?;
    out.extend_from_slice(b" ")?;
    put_name(alloc, out, wire)?;
    out.extend_from_slice(b" ")?;
    put_decimal(alloc, out, u64::from(k))?;
    out.extend_from_slice(b"\n")?;
    Ok(())
}

fn put_alone(out: &mut Vec<u8>, word: &[u8]) -> Result<(), NoMemory>
    ensures { OnOk result (out.new.items ≡ out.old.items ++ (word.now ++ codes "\n")) }
{
    out.extend_from_slice(word)?;
    out.extend_from_slice(b"\n")?;
    Ok(())
}
