//! The lowest free runs of four pages.

use spare_pool::Pool;
use std::test::Fail;

#[test]
fn lowest_runs_of_four_pages(rt: HostRuntime) -> Result<(), Fail> {
    let mut pool = Pool::new(rt.alloc(), 4)?;
    let pair = pool.take(1);
    assert_eq!(rt; pair, Some(0));
    let single = pool.take(0);
    assert_eq!(rt; single, Some(2));
    assert_eq!(rt; pool.fits(1), false);
    assert_eq!(rt; pool.take(1), None);
    pool.give(0, 1);
    assert_eq!(rt; pool.take(1), Some(0));
    Ok(())
}
