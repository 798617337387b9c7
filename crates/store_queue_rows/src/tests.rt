//! A full queue.

use std::test::Fail;
use store_queue::{Pending, StoreQueue};

#[test]
fn a_queue_of_two_refuses_the_third_store(rt: HostRuntime) -> Result<(), Fail> {
    let mut queue = StoreQueue::new(rt.alloc(), 2)?;
    let word = Pending::of(0x1000, 4, 0x1122_3344);
    let half = Pending::of(0x1002, 2, 0xaabb);
    let byte = Pending::of(7, 1, 9);
    assert_eq!(rt; queue.front(), None);
    assert_eq!(rt; queue.push(word), Ok(()));
    assert!(rt; !queue.is_full());
    assert_eq!(rt; queue.push(half), Ok(()));
    assert!(rt; queue.is_full());
    assert_eq!(rt; queue.push(byte), Err(byte));
    assert_eq!(rt; queue.len(), 2);
    assert_eq!(rt; queue.capacity(), 2);
    for (address, want) in [
        (0x0fff, None),
        (0x1000, Some(0x44)),
        (0x1001, Some(0x33)),
        (0x1002, Some(0xbb)),
        (0x1003, Some(0xaa)),
        (0x1004, None),
    ] {
        assert_eq!(rt; queue.newest_byte(address), want, "at {address:x}");
    }
    assert!(rt; queue.holds_in(1, 1));
    assert!(rt; !queue.holds_in(0, 1));
    assert!(rt; !queue.holds_in(2, 1000));
    assert!(rt; !queue.holds_in(1, 0));
    assert_eq!(rt; queue.front(), Some(word));
    assert_eq!(rt; queue.pop(), Some(word));
    assert_eq!(rt; queue.pop(), Some(half));
    assert_eq!(rt; queue.pop(), None);
    Ok(())
}
