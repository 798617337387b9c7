//! The names of links and wires.

ghost use Rattle.std.specs.Prelude.{◌≡◌, ◌<◌, ◌^◌, length, IfOk};
ghost use Rattle.schedule_text.specs.Event.{IsLinkIn};
ghost use Rattle.schedule_text.specs.Link.{link_kind_of, ends_of, link_number, link_named, wire_named};

use crate::arguments::below;
use crate::faults::LineFault;
use crate::sizes::Sizes;
use mind_base::{LinkKind, LinkName, Side};

/// The wire of the rack with this name: that of a link, with `a` behind for its acknowledgements.
#[tactic(auto, unfolding(crate::specs::Link::wire_named))]
pub fn wire(sizes: Sizes, name: &[u8]) -> Result<(LinkName, Side), LineFault>
    requires { length name.now < 2 ^ 32 }
    ensures wire { result ≡ wire_named sizes name.now }
    ensures fits { IfOk result (λ wire. IsLinkIn sizes wire.0) }
{
    if !name.is_empty() && name[name.len() - 1] == b'a' {
        let link = link(sizes, &name[..name.len() - 1])?;
        return Ok((link, Side::Acks));
    }
    let link = link(sizes, name)?;
    Ok((link, Side::Messages))
}

/// The link of the rack with this name: a letter and the number of a blade.
#[tactic(auto, unfolding(crate::specs::Link::link_named, crate::specs::Link::link_kind_of))]
pub fn link(sizes: Sizes, name: &[u8]) -> Result<LinkName, LineFault>
    requires { length name.now < 2 ^ 32 }
    ensures link { result ≡ link_named sizes name.now }
    ensures fits { IfOk result (IsLinkIn sizes) }
{
    if name.is_empty() {
        return Err(LineFault::Wire);
    }
    let kind = kind(name[0])?;
    let number = place(ends(sizes, kind), &name[1..])?;
    Ok(LinkName { kind, number })
}

#[tactic(auto, unfolding(crate::specs::Link::link_kind_of))]
fn kind(letter: u8) -> Result<LinkKind, LineFault>
    ensures { result ≡ link_kind_of letter }
{
    match letter {
        b'u' => Ok(LinkKind::Up),
        b'd' => Ok(LinkKind::Down),
        b't' => Ok(LinkKind::To),
        b'f' => Ok(LinkKind::From),
        _ => Err(LineFault::Wire),
    }
}

fn ends(sizes: Sizes, kind: LinkKind) -> u8
    ensures { result ≡ ends_of sizes kind }
{
    match kind {
        LinkKind::Up | LinkKind::Down => sizes.blades,
        LinkKind::To | LinkKind::From => sizes.memories,
    }
}

/// A decimal number without leading zeros, below the bound.
#[tactic(auto, unfolding(crate::specs::Link::link_number))]
fn place(bound: u8, digits: &[u8]) -> Result<u8, LineFault>
    requires { length digits.now < 2 ^ 32 }
    ensures place { result ≡ link_number bound digits.now }
    ensures within { IfOk result (λ n. n < bound) }
{
    if digits.len() > 1 && digits[0] == b'0' {
        return Err(LineFault::Wire);
    }
    match below(bound, digits) {
        Ok(number) => Ok(number),
        Err(_) => Err(LineFault::Wire),
    }
}
