//! An aligned block of pages.

ghost use Rattle.std.specs.Prelude.{◌≡◌, ◌↔◌, IsTrue};
ghost use Rattle.mind_base.specs.Range.{InRange, in_range, halves_of, parent_of};

use crate::Page;
use std::marker::Model;

/// An aligned block of 2^`log` pages of one domain, `log` 0 to 9, from page number `base` on.
#[derive(Clone, Copy, Debug, PartialEq, Eq, Hash)]
pub struct Range {
    pub domain: u8,
    pub log: u8,
    pub base: u32,
}

impl Model for Range {
    ghost use Rattle.mind_base.specs.Range.{RangeView, IsRange};

    ghost Value = { RangeView };

    ghost view = { λ r. record { domain = r.domain; base = r.base; log = r.log } };

    ghost invariant = { λ r. IsRange r.domain r.base r.log };

    ghost inverse = { λ v. record { domain = v.domain; base = v.base; log = v.log } };
}

impl Range {
    /// Whether the page is one of the block's.
    pub fn has(&self, page: Page) -> bool
        ensures test { result ≡ in_range self.now page }
        ensures has { IsTrue result ↔ InRange self.now page }
    {
        page.domain == self.domain
            && page.number >= self.base
            && page.number - self.base < (1 << self.log)
    }

    /// The two halves, the lower one first; None exactly for a block of one page.
    pub fn halves(&self) -> Option<(Range, Range)>
        ensures { result ≡ halves_of self.now }
    {
        if self.log == 0 {
            return None;
        }
        let log = self.log - 1;
        let lower = Range {
            domain: self.domain,
            base: self.base,
            log,
        };
        let upper = Range {
            domain: self.domain,
            base: self.base + (1 << log),
            log,
        };
        Some((lower, upper))
    }

    /// The block of twice the size around this one; None exactly for a block of 2^9 pages.
    pub fn parent(&self) -> Option<Range>
        ensures { result ≡ parent_of self.now }
    {
        if self.log == 9 {
            return None;
        }
        let log = self.log + 1;
        Some(Range {
            domain: self.domain,
            base: self.base - self.base % (1 << log),
            log,
        })
    }
}
