//! The requests of a blade that are out.

ghost use Rattle.std.specs.Prelude.{◌≡◌};
ghost use Rattle.compute_blade.specs.Blade.{is_for as is_for_of, is_asked as is_asked_of, request_for as request_for_of, requests_without};

use crate::Asked;
use mind_base::Page;

fn is_for(page: Page, asked: &Asked) -> bool
    ensures { result ≡ is_for_of page asked.now }
{
    page == asked.page
}

/// Whether a request for the page is out.
pub fn is_asked(requests: &[Asked], page: Page) -> bool
    ensures { result ≡ is_asked_of page requests.now }
{
    requests.iter().any(|asked| is_for(page, asked))
}

/// The request for the page.
pub fn request_for(requests: &[Asked], page: Page) -> Option<Asked>
    ensures { result ≡ request_for_of page requests.now }
{
    for asked in requests {
        if is_for(page, asked) {
            return Some(*asked);
        }
    }
    None
}

/// The request for the page is out no more.
pub fn answer(requests: &mut Vec<Asked>, page: Page)
    ensures { requests.new.items ≡ requests_without page requests.old.items }
{
    requests.retain(|asked| !is_for(page, asked));
}
