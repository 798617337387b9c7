//! Where a link stands in the order of links.

ghost use Rattle.std.specs.Prelude.{◌≡◌, ◌+◌, ◌*◌, ◌<◌};
ghost use Rattle.rack_net.specs.Net.{link_place};
ghost use Rattle.rack_net.specs.Kept.{IsNameAt};

use mind_base::{LinkKind, LinkName};

/// Where a link stands in the order, in a rack of so many compute blades.
pub(crate) fn place(blades: u8, link: LinkName) -> usize
    ensures { result ≡ link_place blades link }
{
    let first = match link.kind {
        LinkKind::Up => 0,
        LinkKind::Down => 1,
        LinkKind::To => 2 * blades as usize,
        LinkKind::From => 2 * blades as usize + 1,
    };
    first + 2 * link.number as usize
}

/// The link that stands at a place, in a rack of so many compute and memory blades.
pub(crate) fn name(blades: u8, memories: u8, place: usize) -> LinkName
    requires { place < 2 * (blades + memories) }
    ensures { IsNameAt blades memories place result }
{
    let half = place / 2;
    let up = place % 2 == 0;
    if half < blades as usize {
        let kind = if up { LinkKind::Up } else { LinkKind::Down };
        return LinkName {
            kind,
            number: half as u8,
        };
    }
    let kind = if up { LinkKind::To } else { LinkKind::From };
    LinkName {
        kind,
        number: (half - blades as usize) as u8,
    }
}
