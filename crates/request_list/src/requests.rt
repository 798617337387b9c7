//! The requests of the switch, in the order of their arrival.

ghost use Rattle.std.specs.Prelude.{◌≡◌, ◌+◌, ◌<◌, [], ◌∷◌, ◌++◌, ◌↔◌, true, false, length, slice_get, find, filter, not, Some, All, Any, Contains, IfSome, OnOk, OnErr};
ghost use Rattle.mind_base.specs.Page.{PageView};

use crate::waiting;
use crate::waiting::{Access, Waiting, Wanted};
use indexmap::IndexMap;
use mind_base::{NoMemory, Page};
use std::alloc::Global;
use std::marker::Model;

/// A blade's request for a page: to write it, or else to read it, and whether the page is being
/// fetched from its memory blade.
#[derive(Clone, Copy, Debug, PartialEq, Eq)]
pub struct Request {
    pub blade: u8,
    pub page: Page,
    pub write: bool,
    pub fetching: bool,
}

/// The requests of the blades, at most one of each blade for a page. Contracts see the list of them in
/// order of arrival.
#[derive(Drop)]
pub struct Requests {
    waiting: Waiting,
    fetching: Vec<Page>,
}

impl Model for Requests {
    ghost use Rattle.std.specs.Prelude.{List, length, ◌≡◌, ◌≤◌};
    ghost use Rattle.request_list.specs.declared.requests.Request.{Request};
    ghost use Rattle.request_list.specs.Waiting.{requests_of};
    ghost use Rattle.request_list.specs.Requests.{AskOncePerPage, fetched_pages};

    ghost Value = { List Request };

    ghost view = { λ r. requests_of r.waiting.entries };

    ghost invariant = { λ r. (r.fetching.items ≡ fetched_pages (requests_of r.waiting.entries))
        × AskOncePerPage (requests_of r.waiting.entries)
        × (length (requests_of r.waiting.entries) ≤ 4294967295) };
}

impl Requests {
    ghost use Rattle.request_list.specs.Requests.{is_of, fetching_at, fetched_pages, AskOncePerPage};

    /// No requests. It takes no memory.
    pub fn new(alloc: Global) -> Requests
        ensures { result ≡ [] }
    {
        Requests {
            waiting: IndexMap::new(alloc),
            fetching: Vec::new(alloc),
        }
    }

    /// A new request comes last, and waits. After an error nothing has changed.
    pub fn arrive(&mut self, blade: u8, page: Page, write: bool) -> Result<(), NoMemory>
        requires { All (λ r. is_of blade page r ≡ false) self.old }
        ensures ok { OnOk result (self.new ≡ self.old ++ record { blade = blade; page = page; write = write; fetching = false } ∷ []) }
        ensures unchanged { OnErr result (self.new ≡ self.old) }
        ensures apart { AskOncePerPage self.new }
    {
        if self.waiting.len() >= 4294967295 {
            return Err(NoMemory);
        }
        let access = Access {
            write,
            fetching: false,
        };
        self.waiting.insert(Wanted { blade, page }, access)?;
        Ok(())
    }

    pub fn len(&self) -> u32
        ensures { result ≡ length self.now }
    {
        self.waiting.len() as u32
    }

    /// The request at that place in the order of arrival.
    pub fn get(&self, i: u32) -> Request
        requires { i < length self.now }
        ensures { slice_get self.now i ≡ Some result }
    {
        waiting::request_at(&self.waiting, i as usize)
    }

    /// The blade's request for the page, if there is one.
    pub fn find(&self, blade: u8, page: Page) -> Option<Request>
        ensures found { result ≡ find (is_of blade page) self.now }
        ensures apart { AskOncePerPage self.now }
    {
        let Some(at) = self.waiting.get_index_of(&Wanted { blade, page }) else {
            return None;
        };
        let wanted = waiting::request_at(&self.waiting, at);
        Some(wanted)
    }

    /// From now on the page of the request at that place is being fetched. After an error nothing has
    /// changed.
    pub fn start(&mut self, i: u32) -> Result<(), NoMemory>
        requires there { i < length self.old }
        requires waits { IfSome (slice_get self.old i) (λ r. r.fetching ≡ false) }
        ensures ok { OnOk result (self.new ≡ fetching_at self.old i) }
        ensures unchanged { OnErr result (self.new ≡ self.old) }
        ensures apart { AskOncePerPage self.new }
    {
        waiting::start_at(&mut self.waiting, &mut self.fetching, i as usize)?;
        Ok(())
    }

    /// Takes out the blade's request for the page; None exactly where there is none.
    pub fn done(&mut self, blade: u8, page: Page) -> Option<Request>
        ensures found { result ≡ find (is_of blade page) self.old }
        ensures left { self.new ≡ filter (λ r. not (is_of blade page r)) self.old }
        ensures apart { AskOncePerPage self.new }
        ensures was_apart { AskOncePerPage self.old }
    {
        let Some(at) = self.waiting.get_index_of(&Wanted { blade, page }) else {
            return None;
        };
        let request = waiting::take_at(&mut self.waiting, &mut self.fetching, at);
        Some(request)
    }

    /// The page of each request that is fetching, in order of arrival.
    pub fn fetching_pages(&self) -> &[Page]
        ensures pages { result.now ≡ fetched_pages self.now }
        ensures exact { (page : PageView) → Contains result.now page ↔ Any (λ r. (r.fetching ≡ true) × (r.page ≡ page)) self.now }
    {
        self.fetching.as_slice()
    }
}
