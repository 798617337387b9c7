//! The page that an instruction needs, and whether a frame serves it.

ghost use Rattle.std.specs.Prelude.{◌≡◌, ◌<◌, ◌%◌};
ghost use Rattle.hart_core.specs.Memory.{IsAccessSize};
ghost use Rattle.hart_core.specs.Act.{IsWellFormedAct};
ghost use Rattle.hart_effect.specs.Deed.{AsksWellFormed};
ghost use Rattle.hart_effect.specs.declared.finds.Found.TheVariants as found_of;
ghost use Rattle.page_cache.specs.PageCache.{frame_of};
ghost use Rattle.compute_blade.specs.Messages.{same_need as same_need_of, needs_just as needs_just_of};
ghost use Rattle.compute_blade.specs.Steps.{need_at as need_at_of, need_of as need_of_act, need_in as need_in_found, locked_writes as writes_of, writes_at_once as writes_at_once_of, serves as serves_of};

use crate::kept::Need;
use hart_core::{Act, LockedKind, load_size};
use hart_effect::Found;
use mind_base::{Page, Place};
use page_cache::PageCache;

/// What an access needs; nothing at an address that is no multiple of its size.
fn need_at(write: bool, domain: u8, address: u32, size: u8) -> Option<Need>
    requires domain { domain < 16 }
    requires size { IsAccessSize size }
    ensures { result ≡ need_at_of write domain address size }
{
    if address % u32::from(size) != 0 {
        return None;
    }
    let page = Place::of(domain, address).page();
    Some(Need { page, write })
}

fn writes(kind: LockedKind) -> bool
    ensures { result ≡ writes_of kind }
{
    match kind {
        LockedKind::Lr => false,
        LockedKind::Sc | LockedKind::Amo { .. } => true,
    }
}

fn need_of(asked: Act, domain: u8) -> Option<Need>
    requires domain { domain < 16 }
    requires well_formed { IsWellFormedAct asked }
    ensures { result ≡ need_of_act asked domain }
{
    match asked {
        Act::Load { kind, address, .. } => need_at(false, domain, address, load_size(kind)),
        Act::Store { size, address, .. } => need_at(true, domain, address, size),
        Act::Locked { kind, address, .. } => need_at(writes(kind), domain, address, 4),
        Act::Next { .. } | Act::Fence { .. } | Act::Call | Act::Jumped { .. } | Act::Broke => None,
    }
}

/// The page that a hart of the domain needs for what it found.
pub fn need_in(found: Found, domain: u8) -> Option<Need>
    requires domain { domain < 16 }
    requires well_formed { AsksWellFormed found }
    ensures { result ≡ need_in_found found domain }
{
    match found {
        Found::Outside => None,
        Found::Unknown { .. } => None,
        Found::Asks { asked } => need_of(asked, domain),
    }
}

fn same_need(a: Need, b: Need) -> bool
    ensures { result ≡ same_need_of a b }
{
    a.page == b.page && a.write == b.write
}

/// Whether an instruction needs just what was asked for.
pub fn needs_just(asked: Need, need: Option<Need>) -> bool
    ensures { result ≡ needs_just_of asked need }
{
    match need {
        None => false,
        Some(need) => same_need(asked, need),
    }
}

fn writes_at_once(found: Found) -> bool
    ensures { result ≡ writes_at_once_of found }
{
    match found {
        Found::Outside | Found::Unknown { .. } => false,
        Found::Asks { asked } => act_writes_at_once(asked),
    }
}

fn act_writes_at_once(asked: Act) -> bool
    ensures { result ≡ writes_at_once_of (found_of.Asks asked) }
{
    match asked {
        Act::Locked { kind, .. } => writes(kind),
        _ => false,
    }
}

/// Whether a page is held in a frame that serves what was found.
pub fn serves(found: Found, cache: &PageCache, page: Page) -> bool
    ensures { result ≡ serves_of found (frame_of page cache.now.entries) }
{
    match cache.find(page) {
        None => false,
        Some(frame) => !writes_at_once(found) || frame.writable || !frame.perm.may_write(),
    }
}
