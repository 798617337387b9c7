//! Where the pages of a block lie.

ghost use Rattle.std.specs.Prelude.{◌≡◌, ◌<◌, ◌^◌, is_some};
ghost use Rattle.mind_base.specs.Range.{IsRange};
ghost use Rattle.mind_base.specs.Home.{home_of};
ghost use Rattle.range_translate.specs.Place.{physical_place};
ghost use Rattle.range_migrate.specs.Plan.{block_page, each_page, is_at};

use mind_base::{Page, Range};
use range_translate::Table;

/// How many pages the block has.
pub fn pages_in(range: &Range) -> u32
    ensures pages { result ≡ 2 ^ range.now.log }
    ensures block { IsRange range.now.domain range.now.base range.now.log }
{
    1 << range.log
}

/// The page of the block with this number, counted from its first one.
pub fn page_at(range: &Range, n: u32) -> Page
    requires { n < 2 ^ range.now.log }
    ensures { result ≡ block_page range.now n }
{
    Page {
        domain: range.domain,
        number: range.base + n,
    }
}

/// Whether a place is one in this memory blade.
fn is_at(place: Option<(u8, u32)>, memory: u8) -> bool
    ensures { result ≡ is_at memory place }
{
    match place {
        Some((at, _)) => at == memory,
        None => false,
    }
}

/// Whether all pages of the block have a home.
pub fn are_placed(range: &Range, table: &Table) -> bool
    ensures placed { result ≡ each_page range.now (λ page. is_some (home_of table.now.homes page)) }
    ensures block { IsRange range.now.domain range.now.base range.now.log }
{
    for n in 0..pages_in(range) {
        if table.home(page_at(range, n)).is_none() {
            return false;
        }
    }
    true
}

/// Whether all pages of the block lie in this memory blade.
pub fn lie_at(range: &Range, memory: u8, table: &Table) -> bool
    ensures { result ≡ each_page range.now (λ page. is_at memory (physical_place table.now.homes table.now.outliers page)) }
{
    for n in 0..pages_in(range) {
        if !is_at(table.place(page_at(range, n)), memory) {
            return false;
        }
    }
    true
}

/// Whether all pages of the block have their homes in this memory blade.
pub fn have_homes_at(range: &Range, memory: u8, table: &Table) -> bool
    ensures { result ≡ each_page range.now (λ page. is_at memory (home_of table.now.homes page)) }
{
    for n in 0..pages_in(range) {
        if !is_at(table.home(page_at(range, n)), memory) {
            return false;
        }
    }
    true
}
