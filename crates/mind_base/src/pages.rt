//! A page: 4096 bytes of a domain.

ghost use Rattle.std.specs.Prelude.{◌≡◌, ◌<◌};
ghost use Rattle.mind_base.specs.Page.{page_of, page_number_at, page_offset_at};

use std::marker::Model;

/// A page of 4096 bytes: a domain, 0 to 15, and a page number in it, below 2^20.
#[derive(Clone, Copy, Debug, PartialEq, Eq, PartialOrd, Ord, Hash)]
pub struct Page {
    pub domain: u8,
    pub number: u32,
}

impl Model for Page {
    ghost use Rattle.mind_base.specs.Page.{PageView, IsPage};

    ghost Value = { PageView };

    ghost view = { λ p. record { domain = p.domain; number = p.number } };

    ghost invariant = { λ p. IsPage p.domain p.number };

    ghost inverse = { λ v. record { domain = v.domain; number = v.number } };
}

impl Page {
    /// The page that holds the byte at `address` of a domain.
    pub fn of(domain: u8, address: u32) -> Page
        requires { domain < 16 }
        ensures { result ≡ page_of domain address }
    {
        Page {
            domain,
            number: Page::number_at(address),
        }
    }

    /// The number of the page that holds the byte at `address`, in its domain.
    pub fn number_at(address: u32) -> u32
        ensures { result ≡ page_number_at address }
    {
        address / 4096
    }

    /// Which byte of its page the one at `address` is, 0 to 4095.
    pub fn offset_at(address: u32) -> u32
        ensures { result ≡ page_offset_at address }
    {
        address % 4096
    }
}
