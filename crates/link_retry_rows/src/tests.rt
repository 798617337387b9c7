//! Frames that are lost, repeated and come early, by rows.

use link_retry::Link;
use mind_base::Side;
use std::alloc::Global;
use std::process::Abort;
use std::test::Fail;

/// Sends the one byte as a message.
fn send(link: &mut Link, alloc: Global, byte: u8) -> Result<(), Fail> {
    link.send(vec![in alloc; byte]?)?;
    Ok(())
}

/// Delivers a message frame, and wants messages of these bytes for it, one of each.
fn gives(link: &mut Link, rt: &impl Abort, k: u32, wanted: &[u8]) -> Result<(), Fail> {
    let taken = link.deliver(Side::Messages, k)?;
    assert_eq!(rt; taken.len(), wanted.len());
    for (message, byte) in taken.iter().zip(wanted) {
        assert_eq!(rt; message.as_slice(), [*byte].as_slice());
    }
    Ok(())
}

/// A link on which messages of the bytes 0, 1, .. were sent, so many.
fn sent(alloc: Global, count: u8) -> Result<Link, Fail> {
    let mut link = Link::new(alloc)?;
    for byte in 0..count {
        send(&mut link, alloc, byte)?;
    }
    Ok(link)
}

#[test]
fn the_frame_of_the_65th_message_is_lost(rt: HostRuntime) -> Result<(), Fail> {
    let mut link = sent(rt.alloc(), 65)?;
    assert_eq!(rt; link.frames(Side::Messages), 64);
    assert_eq!(rt; link.frames(Side::Acks), 0);
    assert_eq!(rt; link.kept(), 65);
    for byte in 0..64 {
        gives(&mut link, &rt, 0, &[byte])?;
    }
    assert_eq!(rt; link.frames(Side::Messages), 0);
    assert_eq!(rt; link.kept(), 65);
    assert!(rt; link.deliver(Side::Acks, 63)?.is_empty());
    assert_eq!(rt; link.kept(), 1);
    link.resend()?;
    assert_eq!(rt; link.frames(Side::Messages), 1);
    gives(&mut link, &rt, 0, &[64])
}

#[test]
fn messages_that_come_early_wait(rt: HostRuntime) -> Result<(), Fail> {
    let mut link = sent(rt.alloc(), 3)?;
    gives(&mut link, &rt, 1, &[])?;
    gives(&mut link, &rt, 0, &[0, 1])?;
    assert_eq!(rt; link.frames(Side::Messages), 1);
    assert_eq!(rt; link.frames(Side::Acks), 2);
    gives(&mut link, &rt, 0, &[2])
}

#[test]
fn what_came_early_is_not_sent_again(rt: HostRuntime) -> Result<(), Fail> {
    let mut link = sent(rt.alloc(), 3)?;
    link.lose(Side::Messages, 0);
    gives(&mut link, &rt, 0, &[])?;
    gives(&mut link, &rt, 0, &[])?;
    assert!(rt; link.deliver(Side::Acks, 0)?.is_empty());
    assert!(rt; link.deliver(Side::Acks, 0)?.is_empty());
    link.resend()?;
    assert_eq!(rt; link.frames(Side::Messages), 1);
    assert_eq!(rt; link.kept(), 3);
    gives(&mut link, &rt, 0, &[0, 1, 2])
}

#[test]
fn a_message_65_ahead_is_dropped(rt: HostRuntime) -> Result<(), Fail> {
    let mut link = sent(rt.alloc(), 66)?;
    for _ in 0..64 {
        link.lose(Side::Messages, 0);
    }
    link.resend()?;
    for _ in 0..63 {
        gives(&mut link, &rt, 1, &[])?;
    }
    // The acknowledgement of messages 1 to 63: 0 and 64 are sent again behind 0, and 65 once 64 is kept.
    assert!(rt; link.deliver(Side::Acks, 62)?.is_empty());
    link.lose(Side::Messages, 0);
    link.resend()?;
    assert_eq!(rt; link.frames(Side::Messages), 3);
    gives(&mut link, &rt, 2, &[])?;
    gives(&mut link, &rt, 1, &[])?;
    let taken = link.deliver(Side::Messages, 0)?;
    assert_eq!(rt; taken.len(), 65);
    link.resend()?;
    assert_eq!(rt; link.frames(Side::Messages), 3);
    Ok(())
}

#[test]
fn what_is_lost_or_repeated_is_taken_once(rt: HostRuntime) -> Result<(), Fail> {
    let mut link = Link::new(rt.alloc())?;
    send(&mut link, rt.alloc(), 7)?;
    send(&mut link, rt.alloc(), 8)?;
    link.repeat(Side::Messages, 2)?;
    assert_eq!(rt; link.frames(Side::Messages), 3);
    link.lose(Side::Messages, 1);
    gives(&mut link, &rt, 0, &[7])?;
    gives(&mut link, &rt, 0, &[])?;
    gives(&mut link, &rt, 5, &[])?;
    link.resend()?;
    gives(&mut link, &rt, 0, &[])?;
    gives(&mut link, &rt, 0, &[8])
}
