//! Messages of a node go onto their links.

ghost use Rattle.std.specs.Prelude.{◌≡◌, ◌++◌, map, Err, OnOk};
ghost use Rattle.std.specs.List.{AllByRecursion};
ghost use Rattle.mind_base.specs.declared.failures.Stop.TheVariants.{Spent};
ghost use Rattle.wire_msg.specs.WellFormed.{FieldsAgree};
ghost use Rattle.rack_net.specs.Net.{IsLinkOf, IsNet};
ghost use Rattle.rack_core.specs.Calls.{HasSpentLink};
ghost use Rattle.rack_core.specs.Events.{SendsOn, SendsAll};

use mind_base::{LinkName, Stop};
use rack_net::Net;
use wire_msg::Msg;

/// Sends a message on its link.
pub(crate) fn send(net: &mut Net, link: LinkName, msg: &Msg) -> Result<(), Stop>
    requires of_net { IsLinkOf net.old link }
    requires fields { FieldsAgree msg.now }
    ensures ok { OnOk result (SendsOn link msg.now net.old net.new) }
    ensures spent { result ≡ Err Spent → HasSpentLink net.new }
    ensures net { IsNet net.new }
{
    net.send(link, msg)
}

/// Sends messages on one link, in order.
pub(crate) fn send_each(net: &mut Net, link: LinkName, msgs: &[Msg]) -> Result<(), Stop>
    requires of_net { IsLinkOf net.old link }
    requires fields { AllByRecursion FieldsAgree msgs.now }
    ensures ok { OnOk result (SendsAll (map (λ msg. (link, msg)) msgs.now) net.old net.new) }
    ensures spent { result ≡ Err Spent → HasSpentLink net.new }
    ensures net { IsNet net.old → IsNet net.new }
{
    for msg in msgs {
        send(net, link, msg)?;
    }
    Ok(())
}

/// Sends messages, each on its link, in order.
pub(crate) fn send_all(net: &mut Net, msgs: &[(LinkName, Msg)]) -> Result<(), Stop>
    requires { AllByRecursion (λ sent. IsLinkOf net.old sent.0 × FieldsAgree sent.1) msgs.now }
    ensures ok { OnOk result (SendsAll msgs.now net.old net.new) }
    ensures spent { result ≡ Err Spent → HasSpentLink net.new }
    ensures net { IsNet net.old → IsNet net.new }
{
    for (link, msg) in msgs {
        send(net, *link, msg)?;
    }
    Ok(())
}
