//! A run of pages.

ghost use Rattle.std.specs.Prelude.{◌≡◌, ◌↔◌, IsTrue};
ghost use Rattle.mind_base.specs.Span.{InSpan, in_span};

use crate::Page;
use std::marker::Model;

/// A run of `pages` pages of one domain, at least one, from page number `base` on, inside the domain.
#[derive(Clone, Copy, Debug, PartialEq, Eq, Hash)]
pub struct Span {
    pub domain: u8,
    pub base: u32,
    pub pages: u32,
}

impl Model for Span {
    ghost use Rattle.mind_base.specs.Span.{SpanView, IsSpan};

    ghost Value = { SpanView };

    ghost view = { λ s. record { domain = s.domain; base = s.base; pages = s.pages } };

    ghost invariant = { λ s. IsSpan s.domain s.base s.pages };

    ghost inverse = { λ v. record { domain = v.domain; base = v.base; pages = v.pages } };
}

impl Span {
    /// Whether the page is one of the run's.
    pub fn has(&self, page: Page) -> bool
        ensures test { result ≡ in_span self.now page }
        ensures has { IsTrue result ↔ InSpan self.now page }
    {
        page.domain == self.domain
            && page.number >= self.base
            && page.number < self.base + self.pages
    }
}
