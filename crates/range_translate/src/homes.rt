//! The home of a page.

ghost use Rattle.std.specs.Prelude.{◌≡◌, ◌<◌, ◌≤◌, length, map, slice_get, IfSome};
ghost use Rattle.mind_base.specs.Home.{number_in_homes, home_of};
ghost use Rattle.mind_base.specs.Fit.{AreApart, all_homes};
ghost use Rattle.range_translate.specs.Place.{pages_of};

use mind_base::{MemoryPlan, Page, Span};

/// How many pages these runs have together.
pub fn pages_of(homes: &[Span]) -> u32
    requires { AreApart homes.now }
    ensures pages { result ≡ pages_of homes.now }
    ensures few { result ≤ 16777216 }
{
    let mut pages = 0;
    for span in homes {
        pages += span.pages;
    }
    pages
}

/// The number of a page among those of these runs, from 0 on in their order.
pub fn place_in(homes: &[Span], page: Page) -> Option<u32>
    requires { AreApart homes.now }
    ensures place { result ≡ number_in_homes homes.now page }
    ensures few { IfSome result (λ number. number < 16777216) }
{
    let mut before = 0;
    for span in homes {
        if span.has(page) {
            return Some(before + (page.number - span.base));
        }
        before += span.pages;
    }
    None
}

/// The memory blade where the page has its home, and its number there.
pub fn home_of(memories: &[MemoryPlan], page: Page) -> Option<(u8, u32)>
    requires apart { AreApart (all_homes memories.now) }
    requires few { length memories.now ≤ 8 }
    ensures home { result ≡ home_of memories.now page }
    ensures few { IfSome result (λ home. home.1 < 16777216) }
{
    for (blade, memory) in memories.iter().enumerate() {
        if let Some(number) = place_in(memory.homes.as_slice(), page) {
            return Some((blade as u8, number));
        }
    }
    None
}

/// How many home pages the memory blade has.
pub fn spare_base(memories: &[MemoryPlan], memory: usize) -> u32
    requires apart { AreApart (all_homes memories.now) }
    requires there { memory < length memories.now }
    ensures pages { slice_get (map (λ m. pages_of m.homes) memories.now) memory ≡ Some result }
    ensures few { result ≤ 16777216 }
{
    pages_of(memories[memory].homes.as_slice())
}
