//! The links in their order, searched from the first.

ghost use Rattle.std.specs.Prelude.{◌≡◌, [], replicate, IfOk};
ghost use Rattle.link_retry.specs.SelectiveRepeat.{new_selective};
ghost use Rattle.rack_net.specs.Net.{IsNet};
ghost use Rattle.rack_net.specs.Kept.{FindsBusy, FindsKeeping, FindsSide, AreKeptLinks, net_view};
ghost use Rattle.rack_net.specs.LinkSets.{PutsIn, HasLinksWith, is_busy, is_keeping};

use crate::sets::LinkSet;
use link_retry::Link;
use mind_base::{NoMemory, Side};
use std::alloc::Global;

/// So many links that nothing was sent on.
pub(crate) fn empty_links(alloc: Global, count: usize) -> Result<Vec<Link>, NoMemory>
    ensures { IfOk result (λ links. links.items ≡ replicate count new_selective) }
{
    let mut links = Vec::with_capacity(alloc, count)?;
    for _ in 0..count {
        links.push(Link::new(alloc)?)?;
    }
    Ok(links)
}

/// Lets all links go.
pub(crate) fn give_up(blades: &mut u8, memories: &mut u8, links: &mut Vec<Link>)
    ensures kept { AreKeptLinks blades.new memories.new links.new.items }
    ensures net { IsNet (net_view blades.new memories.new links.new.items) }
    ensures none { links.new.items ≡ [] }
{
    *blades = 0;
    *memories = 0;
    links.clear();
}

/// The first wire of a link that is not empty, that of its messages before that of its acknowledgements.
fn busy_side(link: &Link) -> Option<Side>
    ensures { FindsSide link.now result }
{
    if link.frames(Side::Messages) > 0 {
        return Some(Side::Messages);
    }
    if link.frames(Side::Acks) > 0 {
        return Some(Side::Acks);
    }
    None
}

/// Whether a wire of a link has a frame.
fn is_busy(link: &Link) -> bool
    ensures { result ≡ is_busy link.now }
{
    link.frames(Side::Messages) > 0 || link.frames(Side::Acks) > 0
}

/// Notes anew whether the link at a place has a frame, and whether it keeps messages.
pub(crate) fn note_link(link: &Link, place: usize, busy: &mut LinkSet, keeping: &mut LinkSet)
    ensures busy { PutsIn busy.old place (is_busy link.now) busy.new }
    ensures keeping { PutsIn keeping.old place (is_keeping link.now) keeping.new }
{
    busy.put(place, is_busy(link));
    keeping.put(place, link.kept() > 0);
}

/// The place and the side of the first wire that is not empty. Only links past the set are searched.
pub(crate) fn first_busy(links: &[Link], busy: LinkSet) -> Option<(usize, Side)>
    requires { HasLinksWith is_busy links.now busy }
    ensures { FindsBusy links.now result }
{
    if let Some(place) = busy.first() {
        return match busy_side(&links[place]) {
            Some(side) => Some((place, side)),
            None => None,
        };
    }
    for place in 64..links.len() {
        if let Some(side) = busy_side(&links[place]) {
            return Some((place, side));
        }
    }
    None
}

/// The place of the first link that keeps messages. Only links past the set are searched.
pub(crate) fn first_keeping(links: &[Link], keeping: LinkSet) -> Option<usize>
    requires { HasLinksWith is_keeping links.now keeping }
    ensures { FindsKeeping links.now result }
{
    if let Some(place) = keeping.first() {
        return Some(place);
    }
    for place in 64..links.len() {
        if links[place].kept() > 0 {
            return Some(place);
        }
    }
    None
}
