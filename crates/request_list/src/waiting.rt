//! Requests as a map from what is wanted to how far it is.

ghost use Rattle.std.specs.Prelude.{◌≡◌, ◌<◌, ◌≤◌, false, Some, take, remove, slice_get, IfSome, OnOk, OnErr};
ghost use Rattle.indexmap.specs.IndexMap.{index_map_len};
ghost use Rattle.request_list.specs.Waiting.{request_of, requests_of};
ghost use Rattle.request_list.specs.Requests.{fetching_at, fetching_in, fetched_pages};

use crate::Request;
use indexmap::IndexMap;
use mind_base::{NoMemory, Page};

/// Which blade asks for which page.
#[derive(Clone, Copy, Debug, PartialEq, Eq, Hash)]
pub struct Wanted {
    pub blade: u8,
    pub page: Page,
}

/// How it is asked for, and whether the page is being fetched.
#[derive(Clone, Copy, Debug, PartialEq, Eq)]
pub struct Access {
    pub write: bool,
    pub fetching: bool,
}

pub type Waiting = IndexMap<Wanted, Access>;

/// How many of the first requests are fetching.
fn fetching_before(waiting: &Waiting, end: usize) -> usize
    requires { end ≤ index_map_len waiting.now }
    ensures { result ≡ fetching_in (take end (requests_of waiting.now.entries)) }
{
    let mut count = 0;
    for i in 0..end {
        if request_at(waiting, i).fetching {
            count += 1;
        }
    }
    count
}

/// The request at a place.
pub fn request_at(waiting: &Waiting, at: usize) -> Request
    requires { at < index_map_len waiting.now }
    ensures { slice_get (requests_of waiting.now.entries) at ≡ Some result }
{
    let Some((wanted, access)) = waiting.get_index(at) else {
        unreachable!();
    };
    request_of(*wanted, *access)
}

fn request_of(wanted: Wanted, access: Access) -> Request
    ensures { result ≡ request_of (wanted, access) }
{
    Request {
        blade: wanted.blade,
        page: wanted.page,
        write: access.write,
        fetching: access.fetching,
    }
}

/// The request at a place is fetching from now on. After an error nothing has changed.
pub fn start_at(waiting: &mut Waiting, fetching: &mut Vec<Page>, at: usize) -> Result<(), NoMemory>
    requires there { at < index_map_len waiting.old }
    requires waits { IfSome (slice_get (requests_of waiting.old.entries) at) (λ r. r.fetching ≡ false) }
    requires pages { fetching.old.items ≡ fetched_pages (requests_of waiting.old.entries) }
    ensures started { OnOk result (requests_of waiting.new.entries ≡ fetching_at (requests_of waiting.old.entries) at) }
    ensures unchanged { OnErr result (requests_of waiting.new.entries ≡ requests_of waiting.old.entries) }
    ensures pages { fetching.new.items ≡ fetched_pages (requests_of waiting.new.entries) }
{
    let page = request_at(waiting, at).page;
    let place = fetching_before(waiting, at);
    fetching.insert(place, page)?;
    waiting[at].fetching = true;
    Ok(())
}

/// Takes out the request at a place.
pub fn take_at(waiting: &mut Waiting, fetching: &mut Vec<Page>, at: usize) -> Request
    requires there { at < index_map_len waiting.old }
    requires pages { fetching.old.items ≡ fetched_pages (requests_of waiting.old.entries) }
    ensures request { slice_get (requests_of waiting.old.entries) at ≡ Some result }
    ensures rest { requests_of waiting.new.entries ≡ remove (requests_of waiting.old.entries) at }
    ensures pages { fetching.new.items ≡ fetched_pages (requests_of waiting.new.entries) }
{
    let request = request_at(waiting, at);
    let place = fetching_before(waiting, at);
    waiting.shift_remove_index(at);
    if request.fetching {
        fetching.remove(place);
    }
    request
}
