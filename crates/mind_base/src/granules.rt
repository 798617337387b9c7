//! A granule: the aligned 64 bytes that a reservation covers.

ghost use Rattle.std.specs.Prelude.{◌≡◌};
ghost use Rattle.mind_base.specs.Place.{page_with, index_in_page};

use crate::Page;
use std::marker::Model;

/// The 64 aligned bytes on which a reservation stands: a domain, 0 to 15, and the number of granules
/// before it there, below 2^26.
#[derive(Clone, Copy, Debug, PartialEq, Eq)]
pub struct Granule {
    pub domain: u8,
    pub number: u32,
}

impl Model for Granule {
    ghost use Rattle.mind_base.specs.Place.{Granule, IsGranule};

    ghost Value = { Granule };

    ghost view = { λ g. record { domain = g.domain; number = g.number } };

    ghost invariant = { λ g. IsGranule g.domain g.number };

    ghost inverse = { λ v. record { domain = v.domain; number = v.number } };
}

impl Granule {
    /// The page in which the granule lies.
    pub fn page(self) -> Page
        ensures { result ≡ page_with self }
    {
        Page {
            domain: self.domain,
            number: self.number / 64,
        }
    }

    /// Which of its page's granules it is, 0 to 63.
    pub fn index_in_page(self) -> u8
        ensures { result ≡ index_in_page self }
    {
        (self.number % 64) as u8
    }
}
