//! A frame: the image of a page, its permission, and whether it may be written and was.

use mind_base::{Page, Perm};
use page_image::PageImage;

/// A frame of a cache: the image of its page, whether it may be written, whether it was since it came,
/// and what its domain may do with the page.
#[derive(Debug, Drop)]
pub struct Frame {
    pub image: PageImage,
    pub writable: bool,
    pub dirty: bool,
    pub perm: Perm,
}

/// What a put did: the page came in beside the others; its frame took the place of the one that was
/// held; or the least recently used page went, with its frame.
#[derive(Debug, Drop)]
pub enum Put {
    Fresh,
    Replaced { old: Frame },
    Pushed { page: Page, old: Frame },
}

/// Which pages of a run are asked for: all that are held, or those that may be written.
#[derive(Clone, Copy, Debug, PartialEq, Eq)]
pub enum Which {
    Held,
    Writable,
}
