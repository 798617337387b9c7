//! A block that lies away from its home, and the pieces of a run.

use mind_base::Range;

/// A block of pages that has moved: it lies in this memory blade, its first page at the physical number
/// `first` there and the others behind it.
#[derive(Clone, Copy, Debug, PartialEq, Eq)]
pub struct Outlier {
    pub range: Range,
    pub memory: u8,
    pub first: u32,
}

/// `pages` pages that lie one behind another in a memory blade, from the physical number `first` on.
#[derive(Clone, Copy, Debug, PartialEq, Eq)]
pub struct Piece {
    pub memory: u8,
    pub first: u32,
    pub pages: u32,
}

/// Why an outlier was not put into a table: all its slots are taken.
#[derive(Clone, Copy, Debug, PartialEq, Eq)]
pub enum PutRefusal {
    Slots,
}
