//! The page cache of a blade, which pushes the least recently used page out.

ghost use Rattle.std.specs.Prelude.{◌≡◌, ◌<◌, ◌≤◌, [], length, is_some, IsSome, IfNone, IfOk, IsOk, OnOk, IfErr, OnErr};
ghost use Rattle.std.specs.Option.{option_copied};
ghost use Rattle.page_image.specs.PageImage.{IsInside};
ghost use Rattle.page_cache.specs.PageCache.{IsPageCache, frame_of, without_page, with_first, with_change, written_frame, lowered_frame, entries_after_put, put_of, put_kind_of, oldest_of, oldest_first, stands_in, stands_writable_in, stands_as};

use crate::frames::Which;
use crate::{Frame, Put};
use lru::LruCache;
use mind_base::{NoMemory, Page, Span};
use std::alloc::Global;
use std::marker::Model;
use std::num::NonZeroUsize;

/// The pages that a blade holds, each in a frame, the most recently used first. It has a fixed number
/// of frames.
#[derive(Drop)]
pub struct PageCache {
    held: LruCache<Page, Frame>,
}

impl Model for PageCache {
    ghost use Rattle.page_cache.specs.PageCache.{CacheView};

    ghost Value = { CacheView };

    ghost view = { λ c. record { entries = c.held.entries; frames = c.held.cap } };
}

impl PageCache {
    /// An empty cache of that many frames, at least one.
    pub fn new(alloc: Global, frames: u32) -> Result<PageCache, NoMemory>
        requires { 0 < frames }
        ensures entries { IfOk result (λ cache. cache.entries ≡ []) }
        ensures frames { IfOk result (λ cache. cache.frames ≡ frames) }
        ensures shape { IfOk result IsPageCache }
    {
        let frames = NonZeroUsize::new(frames as usize).unwrap();
        let held = LruCache::new(alloc, frames)?;
        Ok(PageCache { held })
    }

    /// The frame of a page; None exactly where it is not held. The order stays.
    pub fn find(&self, page: Page) -> Option<&Frame>
        ensures frame { option_copied result ≡ frame_of page self.now.entries }
        ensures shape { IsPageCache self.now }
    {
        // Its length tells that the pages are distinct, here and in the calls below.
        let _len = self.held.len();
        self.held.peek(&page)
    }

    /// Makes a page the most recently used; false, and nothing changes, exactly where it is not held.
    pub fn touch(&mut self, page: Page) -> bool
        ensures held { result ≡ is_some (frame_of page self.old.entries) }
        ensures entries { self.new ≡ record self.old { entries = with_first (λ frame. frame) page self.old.entries } }
        ensures shape { IsPageCache self.new }
    {
        let held = self.held.promote(&page);
        let _len = self.held.len();
        held
    }

    /// Stores into the image of a page, in place, marks its frame dirty and makes the page the most
    /// recently used; false, and nothing changes, exactly where it is not held. The offset is in
    /// bytes, below 4096, and a multiple of the size, which is 1, 2 or 4.
    pub fn write(&mut self, page: Page, offset: u32, size: u8, value: u32, tag: u64) -> bool
        requires { IsInside offset size }
        ensures held { result ≡ is_some (frame_of page self.old.entries) }
        ensures entries { self.new ≡ record self.old { entries = with_first (written_frame offset size value tag) page self.old.entries } }
        ensures shape { IsPageCache self.new }
    {
        let held = match self.held.get_mut(&page) {
            Some(frame) => {
                frame.image.store(offset, size, value, tag);
                frame.dirty = true;
                true
            }
            None => false,
        };
        let _len = self.held.len();
        held
    }

    /// Puts a frame for a page, which becomes the most recently used. Where the page is held its frame
    /// is replaced; else, where all frames are taken, the least recently used page goes. An error is
    /// want of memory, never comes where the page is held, and hands the frame back.
    pub fn put(&mut self, page: Page, frame: Frame) -> Result<Put, Frame>
        ensures put { IfOk result (λ put. put ≡ put_of self.old page) }
        ensures ok { OnOk result (self.new ≡ record self.old { entries = entries_after_put self.old page frame }) }
        ensures back { IfErr result (λ back. back ≡ frame) }
        ensures err { OnErr result (self.new ≡ self.old) }
        ensures held { IsSome (frame_of page self.old.entries) → IsOk result }
        ensures shape { IsPageCache self.new }
    {
        let pushed = self.held.push(page, frame);
        let _len = self.held.len();
        let displaced = match pushed {
            Ok(displaced) => displaced,
            Err(failed) => {
                let (_, frame) = failed.value;
                return Err(frame);
            }
        };
        Ok(put_kind(page, displaced))
    }

    /// Takes a page out with its frame; None, and nothing changes, exactly where it is not held.
    pub fn take(&mut self, page: Page) -> Option<Frame>
        ensures frame { result ≡ frame_of page self.old.entries }
        ensures entries { self.new ≡ record self.old { entries = without_page page self.old.entries } }
        ensures none { IfNone result (self.new ≡ self.old) }
        ensures shape { IsPageCache self.new }
    {
        let frame = self.held.pop(&page);
        let _len = self.held.len();
        frame
    }

    /// Clears what says that a page may be written and that it was, where it is held. The order stays.
    pub fn lower(&mut self, page: Page)
        ensures entries { self.new ≡ record self.old { entries = with_change lowered_frame page self.old.entries } }
        ensures shape { IsPageCache self.new }
    {
        if let Some(frame) = self.held.peek_mut(&page) {
            frame.writable = false;
            frame.dirty = false;
        }
        let _len = self.held.len();
    }

    /// The least recently used page of a run; None exactly where none is held.
    pub fn oldest_in(&self, span: &Span) -> Option<Page>
        ensures { result ≡ oldest_of (stands_in span.now) self.now.entries }
    {
        self.oldest(Which::Held, span)
    }

    /// The least recently used page of a run that may be written; None exactly where none is held.
    pub fn oldest_writable_in(&self, span: &Span) -> Option<Page>
        ensures { result ≡ oldest_of (stands_writable_in span.now) self.now.entries }
    {
        self.oldest(Which::Writable, span)
    }

    /// The pages of a run that are held, the least recently used first.
    pub fn pages_in(&self, alloc: Global, span: &Span) -> Result<Vec<Page>, NoMemory>
        ensures pages { IfOk result (λ pages. pages.items ≡ oldest_first (stands_in span.now) self.now.entries) }
        ensures count { IfOk result (λ pages. length pages.items ≤ self.now.frames) }
        ensures shape { IsPageCache self.now }
    {
        self.pages(alloc, Which::Held, span)
    }

    /// The pages of a run that may be written, the least recently used first.
    pub fn writable_pages_in(&self, alloc: Global, span: &Span) -> Result<Vec<Page>, NoMemory>
        ensures pages { IfOk result (λ pages. pages.items ≡ oldest_first (stands_writable_in span.now) self.now.entries) }
        ensures count { IfOk result (λ pages. length pages.items ≤ self.now.frames) }
        ensures shape { IsPageCache self.now }
    {
        self.pages(alloc, Which::Writable, span)
    }

    fn oldest(&self, which: Which, span: &Span) -> Option<Page>
        ensures { result ≡ oldest_of (stands_as which span.now) self.now.entries }
    {
        let mut oldest = None;
        for (page, frame) in self.held.iter() {
            if stands(which, span, *page, frame) {
                oldest = Some(*page);
            }
        }
        oldest
    }

    fn pages(&self, alloc: Global, which: Which, span: &Span) -> Result<Vec<Page>, NoMemory>
        ensures pages { IfOk result (λ pages. pages.items ≡ oldest_first (stands_as which span.now) self.now.entries) }
        ensures count { IfOk result (λ pages. length pages.items ≤ self.now.frames) }
        ensures shape { IsPageCache self.now }
    {
        let mut pages = Vec::new(alloc);
        let _len = self.held.len();
        for (page, frame) in self.held.iter() {
            let inside = stands(which, span, *page, frame);
            if inside {
                pages.push(*page)?;
            }
        }
        pages.reverse();
        Ok(pages)
    }
}

/// Whether a page with this frame is one of a run's, and may be written where that is asked.
fn stands(which: Which, span: &Span, page: Page, frame: &Frame) -> bool
    ensures { result ≡ stands_as which span.now (page, frame.now) }
{
    match which {
        Which::Held => span.has(page),
        Which::Writable => span.has(page) && frame.writable,
    }
}

// What a put of a page says by the entry that it displaced.
fn put_kind(page: Page, displaced: Option<(Page, Frame)>) -> Put
    ensures { result ≡ put_kind_of page displaced }
{
    match displaced {
        None => Put::Fresh,
        Some((other, old)) => {
            if page == other {
                Put::Replaced { old }
            } else {
                Put::Pushed { page: other, old }
            }
        }
    }
}
