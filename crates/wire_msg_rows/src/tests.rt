//! Messages and their bytes, by rows.

ghost use Rattle.wire_msg.specs.WellFormed.{FieldsAgree};

use mind_base::{Page, Perm, Range, Span};
use page_image::PageImage;
use std::alloc::{AllocError, Global};
use std::process::Abort;
use std::test::Fail;
use wire_msg::{Msg, WireRefusal, decode, encode};

const LAST: Page = Page {
    domain: 15,
    number: 1_048_575,
};

/// The message is spelled so, and what is spelled so is a message that is spelled so again.
fn is_spelled(rt: &impl Abort, alloc: Global, msg: &Msg, bytes: &[u8]) -> Result<(), Fail>
    requires { FieldsAgree msg.now }
{
    let mut out = Vec::new(alloc);
    encode(msg, &mut out)?;
    assert!(rt; out.as_slice() == bytes);
    let read = decode(alloc, bytes)?;
    let mut again = Vec::new(alloc);
    encode(&read, &mut again)?;
    assert!(rt; again.as_slice() == bytes);
    Ok(())
}

/// An image whose last word and last tag are not zero.
fn image(alloc: Global) -> Result<PageImage, Fail> {
    let mut image = PageImage::zero(alloc)?;
    image.store(4092, 4, 0x0403_0201, 0x1122_3344_5566_7788);
    Ok(image)
}

/// These bytes, and then that image: the mask, and its last granule with its tag.
fn before_image(alloc: Global, head: &[u8]) -> Result<Vec<u8>, AllocError> {
    let mut bytes = head.to_vec(alloc)?;
    bytes.extend_from_slice(b"\x80\0\0\0\0\0\0\0")?;
    bytes.resize(head.len() + 68, 0)?;
    bytes.extend_from_slice(b"\x01\x02\x03\x04")?;
    bytes.extend_from_slice(b"\x11\x22\x33\x44\x55\x66\x77\x88")?;
    Ok(bytes)
}

/// A Fill of page 1 of domain 0, to be read, with an image.
fn fill_of(image: PageImage) -> Msg
    ensures { FieldsAgree result }
{
    Msg::Fill {
        page: Page {
            domain: 0,
            number: 1,
        },
        perm: Perm::R,
        writable: false,
        image,
    }
}

fn is_refused(rt: &impl Abort, alloc: Global, bytes: &[u8]) {
    let refusal = match decode(alloc, bytes) {
        Ok(_) => None,
        Err(refusal) => Some(refusal),
    };
    assert_eq!(rt; refusal, Some(WireRefusal::BadFrame));
}

#[test]
fn pages_and_ranges_are_spelled_by_their_rows(rt: HostRuntime) -> Result<(), Fail> {
    let alloc = rt.alloc();
    let one = Page {
        domain: 0,
        number: 1,
    };
    let last_range = Range {
        domain: 15,
        base: 1_048_064,
        log: 9,
    };
    is_spelled(
        &rt,
        alloc,
        &Msg::Get {
            page: one,
            write: true,
        },
        b"\x01\0\0\0\x01\x01",
    )?;
    is_spelled(
        &rt,
        alloc,
        &Msg::Get {
            page: LAST,
            write: false,
        },
        b"\x01\0\xff\xff\xff\0",
    )?;
    is_spelled(
        &rt,
        alloc,
        &Msg::Deny {
            page: Page::of(0, 0),
        },
        b"\x03\0\0\0\0",
    )?;
    is_spelled(
        &rt,
        alloc,
        &Msg::Inv {
            number: 0,
            range: last_range,
            asked: None,
        },
        b"\x05\0\0\0\0\0\xff\xfe\0\x09\xff\xff\xff\xff",
    )?;
    is_spelled(
        &rt,
        alloc,
        &Msg::Inv {
            number: u32::MAX,
            range: last_range,
            asked: Some(LAST),
        },
        b"\x05\xff\xff\xff\xff\0\xff\xfe\0\x09\0\xff\xff\xff",
    )?;
    let range = Range {
        domain: 0,
        base: 1,
        log: 0,
    };
    is_spelled(
        &rt,
        alloc,
        &Msg::Lower {
            number: u32::MAX,
            range,
            asked: one,
        },
        b"\x06\xff\xff\xff\xff\0\0\0\x01\0\0\0\0\x01",
    )
}

#[test]
fn numbers_are_spelled_by_their_rows(rt: HostRuntime) -> Result<(), Fail> {
    let alloc = rt.alloc();
    is_spelled(
        &rt,
        alloc,
        &Msg::Ack {
            number: u32::MAX,
            count: 0,
        },
        b"\x07\xff\xff\xff\xff\0\0\0\0",
    )?;
    let last = Span {
        domain: 15,
        base: 1_048_575,
        pages: 1,
    };
    is_spelled(
        &rt,
        alloc,
        &Msg::Close {
            number: 1,
            span: last,
            ends: true,
        },
        b"\x08\0\0\0\x01\0\xff\xff\xff\0\0\0\x01\x01",
    )?;
    let all = Span {
        domain: 0,
        base: 0,
        pages: 1_048_576,
    };
    is_spelled(
        &rt,
        alloc,
        &Msg::Close {
            number: u32::MAX,
            span: all,
            ends: false,
        },
        b"\x08\xff\xff\xff\xff\0\0\0\0\0\x10\0\0\0",
    )?;
    is_spelled(
        &rt,
        alloc,
        &Msg::Closed { number: u32::MAX },
        b"\x09\xff\xff\xff\xff",
    )?;
    is_spelled(
        &rt,
        alloc,
        &Msg::Reopen {
            number: 0x0102_0304,
        },
        b"\x0a\x01\x02\x03\x04",
    )?;
    is_spelled(
        &rt,
        alloc,
        &Msg::Read {
            phys: u32::MAX,
            blade: Some(7),
            page: LAST,
        },
        b"\x0b\xff\xff\xff\xff\x07\0\xff\xff\xff",
    )?;
    is_spelled(
        &rt,
        alloc,
        &Msg::Read {
            phys: 0,
            blade: None,
            page: Page::of(0, 0),
        },
        b"\x0b\0\0\0\0\xff\0\0\0\0",
    )?;
    is_spelled(
        &rt,
        alloc,
        &Msg::Zero {
            phys: 0,
            pages: u32::MAX,
        },
        b"\x0e\0\0\0\0\xff\xff\xff\xff",
    )?;
    is_spelled(
        &rt,
        alloc,
        &Msg::Zero {
            phys: 4_294_967_294,
            pages: 1,
        },
        b"\x0e\xff\xff\xff\xfe\0\0\0\x01",
    )
}

#[test]
fn images_are_spelled_by_their_rows(rt: HostRuntime) -> Result<(), Fail> {
    let alloc = rt.alloc();
    let fill = Msg::Fill {
        page: Page::of(0, 0),
        perm: Perm::R,
        writable: false,
        image: image(alloc)?,
    };
    is_spelled(&rt, alloc, &fill, &before_image(alloc, b"\x02\0\0\0\0\0")?)?;
    let fill = Msg::Fill {
        page: LAST,
        perm: Perm::Rw,
        writable: false,
        image: image(alloc)?,
    };
    is_spelled(
        &rt,
        alloc,
        &fill,
        &before_image(alloc, b"\x02\0\xff\xff\xff\x02")?,
    )?;
    let fill = Msg::Fill {
        page: LAST,
        perm: Perm::Rw,
        writable: true,
        image: image(alloc)?,
    };
    is_spelled(
        &rt,
        alloc,
        &fill,
        &before_image(alloc, b"\x02\0\xff\xff\xff\x03")?,
    )?;
    let back = Msg::Back {
        page: LAST,
        image: image(alloc)?,
    };
    is_spelled(
        &rt,
        alloc,
        &back,
        &before_image(alloc, b"\x04\0\xff\xff\xff")?,
    )?;
    let sent = Msg::Image {
        blade: Some(0),
        page: Page::of(0, 0),
        image: image(alloc)?,
    };
    is_spelled(&rt, alloc, &sent, &before_image(alloc, b"\x0c\0\0\0\0\0")?)?;
    let copy = Msg::Image {
        blade: None,
        page: LAST,
        image: image(alloc)?,
    };
    is_spelled(
        &rt,
        alloc,
        &copy,
        &before_image(alloc, b"\x0c\xff\0\xff\xff\xff")?,
    )?;
    let write = Msg::Write {
        phys: u32::MAX,
        image: image(alloc)?,
    };
    is_spelled(
        &rt,
        alloc,
        &write,
        &before_image(alloc, b"\x0d\xff\xff\xff\xff")?,
    )
}

#[test]
fn a_granule_is_spelled_where_it_is_not_zero(rt: HostRuntime) -> Result<(), Fail> {
    let alloc = rt.alloc();
    let head = b"\x02\0\0\0\x01\0".as_slice();
    let zero = b"\x02\0\0\0\x01\0\0\0\0\0\0\0\0\0".as_slice();
    is_spelled(&rt, alloc, &fill_of(PageImage::zero(alloc)?), zero)?;

    let mut second = head.to_vec(alloc)?;
    second.extend_from_slice(b"\0\0\0\0\0\0\0\x02")?;
    second.resize(head.len() + 80, 0)?;
    is_refused(&rt, alloc, second.as_slice());

    second[head.len() + 8 + 5] = 9;
    let mut one_byte = PageImage::zero(alloc)?;
    one_byte.store(69, 1, 9, 0);
    is_spelled(&rt, alloc, &fill_of(one_byte), second.as_slice())?;

    second[head.len() + 8 + 5] = 0;
    second[head.len() + 79] = 3;
    let mut one_tag = PageImage::zero(alloc)?;
    one_tag.store(64, 4, 0, 3);
    is_spelled(&rt, alloc, &fill_of(one_tag), second.as_slice())
}

#[test]
fn what_is_in_no_row_is_refused(rt: HostRuntime) -> Result<(), Fail> {
    let alloc = rt.alloc();
    let refused = [
        b"".as_slice(),
        b"\0".as_slice(),
        b"\x0f\0\0\0\0".as_slice(),
        b"\x01\0\0\0\x01\x02".as_slice(),
        b"\x01\0\0\0\x01".as_slice(),
        b"\x01\0\0\0\x01\x01\0".as_slice(),
        b"\x03\x01\0\0\0".as_slice(),
        b"\x05\0\0\0\0\0\0\0\0\x0a\xff\xff\xff\xff".as_slice(),
        b"\x05\0\0\0\0\0\0\0\x01\x01\xff\xff\xff\xff".as_slice(),
        b"\x05\0\0\0\0\0\0\0\x02\x01\0\0\0\x04".as_slice(),
        b"\x06\0\0\0\0\0\0\0\x02\x01\xff\xff\xff\xff".as_slice(),
        b"\x08\0\0\0\x01\0\0\0\0\0\0\0\0\x01".as_slice(),
        b"\x08\0\0\0\x01\0\0\0\x01\0\x10\0\0\x01".as_slice(),
        b"\x0b\0\0\0\0\x08\0\0\0\0".as_slice(),
        b"\x0e\0\0\0\0\0\0\0\0".as_slice(),
        b"\x0e\xff\xff\xff\xff\0\0\0\x01".as_slice(),
    ];
    for bytes in refused {
        is_refused(&rt, alloc, bytes);
    }
    is_refused(&rt, alloc, &before_image(alloc, b"\x02\0\0\0\0\x01")?);
    is_refused(&rt, alloc, &before_image(alloc, b"\x04\0\0\0")?);
    is_refused(&rt, alloc, &before_image(alloc, b"\x0d\0\0\0\0\0")?);
    Ok(())
}

#[test]
fn the_deny_of_a_page_is_read(rt: HostRuntime) -> Result<(), Fail> {
    match decode(rt.alloc(), b"\x03\0\x10\0\x02")? {
        Msg::Deny { page } => {
            assert_eq!(rt;
                page,
                Page {
                    domain: 1,
                    number: 2
                }
            );
            Ok(())
        }
        _ => Err("another message")?,
    }
}
