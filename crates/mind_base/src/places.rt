//! A byte of memory: a domain and an address in it.

ghost use Rattle.std.specs.Prelude.{◌≡◌, ◌<◌};
ghost use Rattle.mind_base.specs.Place.{place_of, page_at, offset_at, granule_at};

use crate::{Granule, Page};
use std::marker::Model;

/// A byte of memory: a domain, 0 to 15, and an address in it.
#[derive(Clone, Copy, Debug, PartialEq, Eq)]
pub struct Place {
    pub domain: u8,
    pub address: u32,
}

impl Model for Place {
    ghost use Rattle.mind_base.specs.Place.{Place, IsPlace};

    ghost Value = { Place };

    ghost view = { λ p. record { domain = p.domain; address = p.address } };

    ghost invariant = { λ p. IsPlace p.domain p.address };

    ghost inverse = { λ v. record { domain = v.domain; address = v.address } };
}

impl Place {
    /// The byte that an access of a thread of a domain, which is below 16, names at an address.
    pub fn of(domain: u8, address: u32) -> Place
        requires { domain < 16 }
        ensures { result ≡ place_of domain address }
    {
        Place { domain, address }
    }

    /// The page of the byte.
    pub fn page(self) -> Page
        ensures { result ≡ page_at self }
    {
        Page::of(self.domain, self.address)
    }

    /// Which byte of its page it is, 0 to 4095.
    pub fn offset(self) -> u32
        ensures { result ≡ offset_at self }
    {
        Page::offset_at(self.address)
    }

    /// The granule of the byte.
    pub fn granule(self) -> Granule
        ensures { result ≡ granule_at self }
    {
        Granule {
            domain: self.domain,
            number: self.address / 64,
        }
    }
}
