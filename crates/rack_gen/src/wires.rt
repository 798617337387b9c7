//! The wires of a rack, in the order in which one is drawn.

ghost use Rattle.std.specs.Prelude.{◌≡◌, ◌+◌, ◌*◌, ◌++◌, length, IfOk, OnOk};
ghost use Rattle.mind_base.specs.declared.links.LinkKind.TheVariants.{Up, Down, To, From};
ghost use Rattle.rack_gen.specs.Wire.{wires_of_link, wires_between, letter_of, side_mark, wire_name};

use mind_base::{LinkKind, LinkName, NoMemory, Side};
use plain_text::put_decimal;
use std::alloc::Global;

/// A wire of the rack: its link, and whether it carries the messages or their acknowledgements.
#[derive(Clone, Copy, Debug, PartialEq, Eq)]
pub struct Wire {
    pub link: LinkName,
    pub side: Side,
}

/// The wires of a rack with so many compute and memory blades, in order.
pub fn make_wires(alloc: Global, blades: u8, memories: u8) -> Result<Vec<Wire>, NoMemory>
    ensures wires { IfOk result (λ wires. wires.items ≡ wires_between Up Down blades ++ wires_between To From memories) }
    ensures four { IfOk result (λ wires. length wires.items ≡ 4 * (blades + memories)) }
{
    let mut wires = Vec::new(alloc);
    push_wires(&mut wires, LinkKind::Up, LinkKind::Down, blades)?;
    push_wires(&mut wires, LinkKind::To, LinkKind::From, memories)?;
    Ok(wires)
}

#[tactic(auto, unfolding(crate::specs::Wire::wires_between))]
fn push_wires(
    wires: &mut Vec<Wire>,
    one: LinkKind,
    other: LinkKind,
    blades: u8,
) -> Result<(), NoMemory>
    ensures { OnOk result (wires.new.items ≡ wires.old.items ++ wires_between one other blades) }
{
    for number in 0..blades {
        push_link(wires, one, number)?;
        push_link(wires, other, number)?;
    }
    Ok(())
}

/// The wire of a link's messages, and that of their acknowledgements.
fn push_link(wires: &mut Vec<Wire>, kind: LinkKind, number: u8) -> Result<(), NoMemory>
    ensures { OnOk result (wires.new.items ≡ wires.old.items ++ wires_of_link kind number) }
{
    let link = LinkName { kind, number };
    let side = Side::Messages;
    wires.push(Wire { link, side })?;
    let side = Side::Acks;
    wires.push(Wire { link, side })?;
    Ok(())
}

fn letter(kind: LinkKind) -> &'static [u8]
    ensures { result.now ≡ letter_of kind }
{
    match kind {
        LinkKind::Up => b"u",
        LinkKind::Down => b"d",
        LinkKind::To => b"t",
        LinkKind::From => b"f",
    }
}

fn mark(side: Side) -> &'static [u8]
    ensures { result.now ≡ side_mark side }
{
    match side {
        Side::Messages => b"",
        Side::Acks => b"a",
    }
}

/// The name of a wire.
pub fn put_name(alloc: Global, out: &mut Vec<u8>, wire: Wire) -> Result<(), NoMemory>
    ensures { OnOk result (out.new.items ≡ out.old.items ++ wire_name wire) }
{
    out.extend_from_slice(letter(wire.link.kind))?;
    put_decimal(alloc, out, u64::from(wire.link.number))?;
    out.extend_from_slice(mark(wire.side))?;
    Ok(())
}
