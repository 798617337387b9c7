//! A move of a block, and one copy of a page.

use mind_base::{Page, Range};

/// A move of a block of pages to a memory blade: to a run of its spare pages, whose first one has the
/// number `run` among them, or home where there is no run. `next` counts the pages that were copied.
#[derive(Clone, Copy, Debug, PartialEq, Eq)]
pub struct Move {
    pub range: Range,
    pub memory: u8,
    pub run: Option<u32>,
    pub next: u32,
}

/// A page to be copied, from a place to another one: each is a memory blade and a physical number
/// there.
#[derive(Clone, Copy, Debug, PartialEq, Eq)]
pub struct Copy1 {
    pub page: Page,
    pub from: (u8, u32),
    pub to: (u8, u32),
}
