//! On which side of a block a page lies.

ghost use Rattle.std.specs.Prelude.{◌≡◌};
ghost use Rattle.region_directory.specs.Side.{where_lies};

use mind_base::{Page, Range};

/// Where a page lies, by domain and page number: before a block of pages, inside it, or after it.
#[derive(Clone, Copy, Debug, PartialEq, Eq)]
pub enum Where {
    Before,
    Inside,
    After,
}

/// Where the page lies, seen from the block.
pub fn side_of(range: &Range, page: &Page) -> Where
    ensures { result ≡ where_lies range.now page.now }
{
    if range.has(*page) {
        return Where::Inside;
    }
    if page.domain < range.domain || (page.domain == range.domain && page.number < range.base) {
        return Where::Before;
    }
    Where::After
}
