//! How two blocks stand to each other.

ghost use Rattle.std.specs.Prelude.{◌≡◌};
ghost use Rattle.mind_base.specs.Range.{same_range};
ghost use Rattle.range_translate.specs.Block.{block_lies_inside, encloses, comes_before};

use mind_base::Range;

/// Whether all pages of the first block are pages of the second one.
pub fn is_inside(inner: &Range, outer: &Range) -> bool
    ensures { result ≡ block_lies_inside inner.now outer.now }
{
    inner.domain == outer.domain
        && outer.base <= inner.base
        && inner.base + (1 << inner.log) <= outer.base + (1 << outer.log)
}

/// Whether the first block is larger than the second one and has all its pages.
pub fn encloses(outer: &Range, inner: &Range) -> bool
    ensures { result ≡ encloses outer.now inner.now }
{
    is_inside(inner, outer) && inner.log < outer.log
}

pub fn same_range(a: &Range, b: &Range) -> bool
    ensures { result ≡ same_range a.now b.now }
{
    a.domain == b.domain && a.base == b.base && a.log == b.log
}

/// Whether the first block stands before the second one, by domain, first page and size.
pub fn comes_before(a: &Range, b: &Range) -> bool
    ensures { result ≡ comes_before a.now b.now }
{
    a.domain < b.domain
        || (a.domain == b.domain && (a.base < b.base || (a.base == b.base && a.log < b.log)))
}
