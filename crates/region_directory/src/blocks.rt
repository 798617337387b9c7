//! How two blocks lie to each other.

ghost use Rattle.std.specs.Prelude.{◌≡◌, ◌↔◌, ◌≤◌, ◌^◌, IsTrue};
ghost use Rattle.region_directory.specs.Block.{is_before, are_apart, block_of};

use mind_base::{Page, Range};

/// How many pages a block has.
fn pages_in_block(range: &Range) -> u32
    ensures size { result ≡ 2 ^ range.now.log }
    ensures bound { result ≤ 512 }
{
    1 << range.log
}

/// Whether the first block stands before the second, by domain and first page.
pub fn comes_before(a: &Range, b: &Range) -> bool
    ensures { result ≡ is_before a.now b.now }
{
    a.domain < b.domain || (a.domain == b.domain && a.base < b.base)
}

/// Whether no page is in both blocks.
pub fn stand_apart(a: &Range, b: &Range) -> bool
    ensures { result ≡ are_apart a.now b.now }
{
    let a_pages = pages_in_block(a);
    let b_pages = pages_in_block(b);
    !(a.domain == b.domain && (a.base < b.base + b_pages && b.base < a.base + a_pages))
}

/// The aligned block of 2^`log` pages with the page.
pub fn block_around(page: &Page, log: u8) -> Range
    requires { log ≤ 9 }
    ensures { result ≡ block_of page.now log }
{
    let pages: u32 = 1 << log;
    Range {
        domain: page.domain,
        base: page.number - page.number % pages,
        log,
    }
}
