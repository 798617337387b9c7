//! The messages of the rack.

use mind_base::{Page, Perm, Range, Span};
use page_image::PageImage;

/// What one node tells another.
#[derive(Debug, Drop)]
pub enum Msg {
    /// A blade asks for a page, to read it or to write it.
    Get {
        page: Page,
        write: bool,
    },
    /// The image of a page for the blade that asked, with what its domain may do with it, which is
    /// not `No`. `writable` only under `Rw`: the blade may write it at once.
    Fill {
        page: Page,
        perm: Perm,
        writable: bool,
        image: PageImage,
    },
    /// The domain may not do what was asked.
    Deny {
        page: Page,
    },
    /// A blade gives back the image of a page that it wrote.
    Back {
        page: Page,
        image: PageImage,
    },
    /// The pages of a range are to be given up, except for none or one page that was asked for.
    Inv {
        number: u32,
        range: Range,
        asked: Option<Page>,
    },
    /// The pages of a range are no longer to be written; a page of the range was asked for.
    Lower {
        number: u32,
        range: Range,
        asked: Page,
    },
    /// An `Inv` or a `Lower` was done, with so many pages given up or lowered.
    Ack {
        number: u32,
        count: u32,
    },
    /// A command begins: the pages of the span are to be given up. `ends` for a map and an unmap.
    Close {
        number: u32,
        span: Span,
        ends: bool,
    },
    /// They were given up.
    Closed {
        number: u32,
    },
    /// The command is done.
    Reopen {
        number: u32,
    },
    /// The page with this physical number is wanted, for a blade from 0 to 7, or for a copy.
    Read {
        phys: u32,
        blade: Option<u8>,
        page: Page,
    },
    /// Its image.
    Image {
        blade: Option<u8>,
        page: Page,
        image: PageImage,
    },
    /// The page with this physical number gets an image.
    Write {
        phys: u32,
        image: PageImage,
    },
    /// Physical pages, at least one, whose numbers end below 2^32 - 1, become zero.
    Zero {
        phys: u32,
        pages: u32,
    },
}
