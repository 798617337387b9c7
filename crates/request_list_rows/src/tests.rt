//! Requests of two blades for two pages.

ghost use Rattle.std.specs.Prelude.{◌≡◌, ◌<◌};

use mind_base::Page;
use request_list::{Request, Requests};
use std::test::Fail;

fn page(number: u32) -> Page
    requires { number < 1000 }
    ensures { result ≡ record { domain = 0; number = number } }
{
    Page { domain: 0, number }
}

#[test]
fn requests_stay_in_order_of_arrival(rt: HostRuntime) -> Result<(), Fail> {
    let mut requests = Requests::new(rt.alloc());
    requests.arrive(0, page(7), false)?;
    requests.arrive(1, page(7), true)?;
    requests.arrive(0, page(8), true)?;
    assert_eq!(rt; requests.len(), 3);
    requests.start(2)?;
    requests.start(1)?;
    assert_eq!(rt; requests.fetching_pages(), [page(7), page(8)].as_slice());
    let first = requests.done(0, page(7));
    assert_eq!(rt;
        first,
        Some(Request {
            blade: 0,
            page: page(7),
            write: false,
            fetching: false
        })
    );
    assert_eq!(rt; requests.done(0, page(7)), None);
    assert_eq!(rt; requests.len(), 2);
    assert_eq!(rt;
        requests.get(0),
        Request {
            blade: 1,
            page: page(7),
            write: true,
            fetching: true
        }
    );
    let second = requests.done(1, page(7));
    assert_eq!(rt; second.is_some(), true);
    assert_eq!(rt; requests.fetching_pages(), [page(8)].as_slice());
    Ok(())
}
