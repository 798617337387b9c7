//! Pages that come, are written, pushed out and taken, by rows.

ghost use Rattle.std.specs.Prelude.{◌<◌};

use mind_base::{Page, Perm, Span};
use page_cache::{Frame, PageCache, Put};
use page_image::PageImage;
use std::alloc::Global;
use std::test::Fail;

fn page(number: u32) -> Page
    requires { number < 1000 }
{
    Page { domain: 0, number }
}

fn frame(alloc: Global, writable: bool) -> Result<Frame, Fail> {
    Ok(Frame {
        image: PageImage::zero(alloc)?,
        writable,
        dirty: false,
        perm: Perm::Rw,
    })
}

#[test]
fn the_third_page_of_two_frames_pushes_the_least_recently_used(
    rt: HostRuntime,
) -> Result<(), Fail> {
    let mut cache = PageCache::new(rt.alloc(), 2)?;
    assert!(rt;
        matches!(
            cache.put(page(1), frame(rt.alloc(), false)?),
            Ok(Put::Fresh)
        )
    );
    assert!(rt; matches!(cache.put(page(2), frame(rt.alloc(), true)?), Ok(Put::Fresh)));
    assert!(rt; cache.touch(page(1)));
    assert!(rt; !cache.touch(page(3)));
    let Ok(put) = cache.put(page(3), frame(rt.alloc(), false)?) else {
        return Err(Fail::from("no memory"));
    };
    let Put::Pushed { page: out, old } = put else {
        return Err(Fail::from("not pushed"));
    };
    assert!(rt; out == page(2));
    assert!(rt; old.writable);
    assert!(rt; cache.find(page(2)).is_none());
    assert!(rt;
        matches!(
            cache.put(page(1), frame(rt.alloc(), true)?),
            Ok(Put::Replaced { .. })
        )
    );
    Ok(())
}

#[test]
fn a_page_is_written_lowered_and_taken(rt: HostRuntime) -> Result<(), Fail> {
    let mut cache = PageCache::new(rt.alloc(), 4)?;
    let span = Span {
        domain: 0,
        base: 0,
        pages: 8,
    };
    assert_eq!(rt; cache.oldest_in(&span), None);
    assert!(rt; cache.pages_in(rt.alloc(), &span)?.is_empty());
    assert!(rt; cache.put(page(5), frame(rt.alloc(), true)?).is_ok());
    assert!(rt; cache.put(page(6), frame(rt.alloc(), false)?).is_ok());
    assert!(rt; cache.put(page(8), frame(rt.alloc(), true)?).is_ok());
    assert!(rt; cache.write(page(5), 64, 4, 17, 3));
    assert!(rt; !cache.write(page(7), 64, 4, 17, 3));
    assert_eq!(rt; cache.oldest_in(&span), Some(page(6)));
    assert_eq!(rt; cache.oldest_writable_in(&span), Some(page(5)));
    let held = cache.pages_in(rt.alloc(), &span)?;
    assert_eq!(rt; held.len(), 2);
    assert_eq!(rt; held[0], page(6));
    assert_eq!(rt; held[1], page(5));
    let writable = cache.writable_pages_in(rt.alloc(), &span)?;
    assert_eq!(rt; writable.len(), 1);
    assert_eq!(rt; writable[0], page(5));
    let held = cache.find(page(5)).ok_or("not held")?;
    assert!(rt; held.dirty);
    assert_eq!(rt; held.image.load(64, 4), 17);
    assert_eq!(rt; held.image.tag(1), 3);
    cache.lower(page(5));
    assert_eq!(rt; cache.oldest_writable_in(&span), None);
    assert!(rt; cache.writable_pages_in(rt.alloc(), &span)?.is_empty());
    let taken = cache.take(page(5)).ok_or("not held")?;
    assert!(rt; !taken.dirty);
    assert!(rt; !taken.writable);
    assert!(rt; cache.take(page(5)).is_none());
    Ok(())
}
