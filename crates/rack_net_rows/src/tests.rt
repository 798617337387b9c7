//! Messages on the links of a small rack, by rows.

ghost use Rattle.std.specs.Prelude.{◌≡◌, OnOk};
ghost use Rattle.rack_net.specs.Net.{IsLinkOf};

use mind_base::{LinkKind, LinkName, Side};
use rack_net::Net;
use std::process::Abort;
use std::test::Fail;
use wire_msg::Msg;

/// Sends a message that has this number.
fn sends(net: &mut Net, link: LinkName, number: u32) -> Result<(), Fail>
    requires { IsLinkOf net.old link }
    ensures blades { OnOk result (net.new.blades ≡ net.old.blades) }
    ensures memories { OnOk result (net.new.memories ≡ net.old.memories) }
{
    net.send(link, &Msg::Closed { number })?;
    Ok(())
}

fn has_number(msg: &Msg, wanted: u32) -> bool {
    match msg {
        Msg::Closed { number } => *number == wanted,
        _ => false,
    }
}

/// Delivers a message frame, and wants messages with these numbers for it.
fn gives(rt: &impl Abort, net: &mut Net, link: LinkName, k: u32, wanted: &[u32]) -> Result<(), Fail>
    requires { IsLinkOf net.old link }
    ensures blades { OnOk result (net.new.blades ≡ net.old.blades) }
    ensures memories { OnOk result (net.new.memories ≡ net.old.memories) }
{
    let taken = net.deliver(link, Side::Messages, k)?;
    assert_eq!(rt; taken.len(), wanted.len());
    for (message, number) in taken.iter().zip(wanted) {
        assert!(rt; has_number(message, *number), "{number}");
    }
    Ok(())
}

/// What the first wire that is not empty is, and the first link that keeps messages.
fn first_are(rt: &impl Abort, net: &Net, frame: Option<(LinkName, Side)>, kept: Option<LinkName>) {
    assert_eq!(rt; net.first_frame(), frame);
    assert_eq!(rt; net.first_kept(), kept);
}

/// Loses, repeats and resends frames of a link with the frames of its first message and of its third,
/// whose second came early.
fn frames_go_and_come(rt: &impl Abort, net: &mut Net, link: LinkName) -> Result<(), Fail>
    requires { IsLinkOf net.old link }
    ensures blades { OnOk result (net.new.blades ≡ net.old.blades) }
    ensures memories { OnOk result (net.new.memories ≡ net.old.memories) }
{
    net.repeat(link, Side::Messages, 7)?;
    net.lose(link, Side::Messages, 0);
    gives(rt, net, link, 0, &[])?;
    gives(rt, net, link, 0, &[])?;
    first_are(rt, net, Some((link, Side::Acks)), Some(link));
    net.resend(link)?;
    gives(rt, net, link, 0, &[10, 11, 12])
}

#[test]
fn messages_are_taken_in_their_order(rt: HostRuntime) -> Result<(), Fail> {
    let mut net = Net::new(rt.alloc(), 2, 1)?;
    let from = LinkName {
        kind: LinkKind::From,
        number: 0,
    };
    let up = LinkName {
        kind: LinkKind::Up,
        number: 1,
    };
    first_are(&rt, &net, None, None);
    sends(&mut net, from, 10)?;
    sends(&mut net, from, 11)?;
    sends(&mut net, from, 12)?;
    first_are(&rt, &net, Some((from, Side::Messages)), Some(from));
    gives(&rt, &mut net, from, 1, &[])?;
    frames_go_and_come(&rt, &mut net, from)?;
    gives(&rt, &mut net, from, 0, &[])?;
    sends(&mut net, up, 13)?;
    first_are(&rt, &net, Some((up, Side::Messages)), Some(up));
    gives(&rt, &mut net, up, 3, &[13])
}
