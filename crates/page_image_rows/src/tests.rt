//! Images stored to, and spelled and read again.

use page_image::PageImage;
use std::test::Fail;

#[test]
fn a_store_and_its_tag_are_read_back(rt: HostRuntime) -> Result<(), Fail> {
    let mut image = PageImage::zero(rt.alloc())?;
    image.store(136, 4, 0x1122_3344, 7);
    assert_eq!(rt; image.load(136, 4), 0x1122_3344);
    assert_eq!(rt; image.load(136, 1), 0x44);
    assert_eq!(rt; image.load(138, 2), 0x1122);
    assert_eq!(rt; image.load(140, 4), 0);
    assert_eq!(rt; image.tag(1), 0);
    assert_eq!(rt; image.tag(2), 7);
    let copy = image.copy()?;
    assert_eq!(rt; copy.load(136, 4), 0x1122_3344);
    assert_eq!(rt; copy.tag(2), 7);
    Ok(())
}

#[test]
fn an_image_is_spelled_and_read(rt: HostRuntime) -> Result<(), Fail> {
    let mut image = PageImage::zero(rt.alloc())?;
    image.store(4094, 2, 0x0102, 0x0a0b);
    let mut bytes = vec![in rt.alloc(); 9u8]?;
    image.to_bytes(&mut bytes)?;
    assert_eq!(rt; bytes.len(), 4609);
    assert_eq!(rt; bytes[0], 9);
    assert_eq!(rt; bytes[4095], 0x02);
    assert_eq!(rt; bytes[4096], 0x01);
    assert_eq!(rt; bytes[4607], 0x0a);
    assert_eq!(rt; bytes[4608], 0x0b);
    let read = PageImage::from_bytes(rt.alloc(), &bytes[1..])?.ok_or("none")?;
    assert_eq!(rt; read.load(4094, 2), 0x0102);
    assert_eq!(rt; read.tag(63), 0x0a0b);
    assert!(rt; PageImage::from_bytes(rt.alloc(), bytes.as_slice())?.is_none());
    Ok(())
}
