//! A frame is delivered: what its link gives is handed to the node at its end, message by message.

ghost use Rattle.std.specs.Prelude.{◌≡◌, ◌<◌, [], All, length, Err, OnOk, reverse};
ghost use Rattle.mind_base.specs.Fit.{FitImages};
ghost use Rattle.mind_base.specs.declared.events.Event.TheVariants as event;
ghost use Rattle.mind_base.specs.declared.failures.Stop.TheVariants.{Spent};
ghost use Rattle.mind_base.specs.declared.links.LinkKind.TheVariants.{Down, To};
ghost use Rattle.wire_msg.specs.WellFormed.{IsWellFormed};
ghost use Rattle.switch_core.specs.Handling.{MayComeToSwitch};
ghost use Rattle.switch_core.specs.Sending.{AreFetchesAllowed};
ghost use Rattle.rack_core.specs.Calls.{HasLink, HasSpentNumber, IsKept, MayBeHanded, Notes};
ghost use Rattle.rack_core.specs.Events.{HandsTo, HandsAll, Leads, MemoryHears, SwitchHears};
ghost use Rattle.rack_core.specs.Shape.{IsShaped};
ghost use Rattle.rack_core.specs.Handing.{IsHanding, MayHear};
ghost use Rattle.rack_core.specs.Leaves.{Leaves};

use crate::racks::Rack;
use crate::sends::{send, send_all};
use mind_base::{Image, LinkKind, LinkName, Log, Side, Stop};
use wire_msg::Msg;

impl Rack {
    /// Delivers a frame of a wire of a link.
    pub(super) fn deliver(
        &mut self,
        link: LinkName,
        side: Side,
        k: u32,
        images: &[Image],
        log: &mut Log,
    ) -> Result<(), Stop>
        requires kept { IsKept self.old }
        requires link { HasLink self.old.plan link }
        requires images { FitImages self.old.plan.images images.now }
        ensures leads { OnOk result (Notes (Leads images.now (event.Deliver link side k) self.old self.new) log.old.notes log.new.notes) }
        ensures leaves { Leaves result self.old self.new log.old.notes log.new.notes }
    {
        let mut taken = self.net.deliver(link, side, k)?;
        taken.reverse();
        self.hand_all(link, taken, images, log)
    }

    /// Hands messages to the node at the end of their link, the last of the list first.
    fn hand_all(
        &mut self,
        link: LinkName,
        mut left: Vec<Msg>,
        images: &[Image],
        log: &mut Log,
    ) -> Result<(), Stop>
        requires shape { IsShaped self.old }
        requires link { HasLink self.old.plan link }
        requires handing { IsHanding link (reverse left.items) self.old }
        requires formed { All IsWellFormed left.items }
        requires images { FitImages self.old.plan.images images.now }
        ensures ok { OnOk result (Notes (HandsAll images.now link (reverse left.items) self.old self.new) log.old.notes log.new.notes) }
        ensures leaves { Leaves result self.old self.new log.old.notes log.new.notes }
    {
        while let Some(msg) = left.pop() {
            self.hand(link, msg, images, log)?;
        }
        Ok(())
    }

    /// Hands a message to the node at the end of a link, which handles it at once.
    fn hand(
        &mut self,
        link: LinkName,
        msg: Msg,
        images: &[Image],
        log: &mut Log,
    ) -> Result<(), Stop>
        requires ready { MayHear images.now self.old }
        requires link { HasLink self.old.plan link }
        requires may { MayBeHanded link.kind link.number msg self.old }
        requires formed { IsWellFormed msg }
        requires allowed { AreFetchesAllowed self.old.switch }
        ensures ok { OnOk result (Notes (HandsTo link.kind images.now link.number msg self.old self.new) log.old.notes log.new.notes) }
        ensures leaves { Leaves result self.old self.new log.old.notes log.new.notes }
    {
        match link.kind {
            LinkKind::Up => self.hand_to_switch(link, msg, log),
            LinkKind::Down => self.hand_down(link.number, msg, images, log),
            LinkKind::To => self.hand_to_memory(link.number, msg),
            LinkKind::From => self.hand_to_switch(link, msg, log),
        }
    }

    fn hand_to_switch(&mut self, link: LinkName, msg: Msg, log: &mut Log) -> Result<(), Stop>
        requires shape { IsShaped self.old }
        requires may { MayComeToSwitch self.old.switch link msg }
        requires formed { IsWellFormed msg }
        requires allowed { AreFetchesAllowed self.old.switch }
        ensures ok { OnOk result (Notes (SwitchHears link msg self.old self.new) log.old.notes log.new.notes) }
        ensures leaves { Leaves result self.old self.new log.old.notes log.new.notes }
    {
        let mut sent = Vec::new(self.alloc);
        self.switch.receive(link, msg, &mut sent, log)?;
        send_all(&mut self.net, sent.as_slice())
    }

    fn hand_down(
        &mut self,
        number: u8,
        msg: Msg,
        images: &[Image],
        log: &mut Log,
    ) -> Result<(), Stop>
        requires ready { MayHear images.now self.old }
        requires number { number < length self.old.plan.frames }
        requires may { MayBeHanded Down number msg self.old }
        ensures ok { OnOk result (Notes (HandsTo Down images.now number msg self.old self.new) log.old.notes log.new.notes) }
        ensures leaves { Leaves result self.old self.new log.old.notes log.new.notes }
    {
        let mut sent = Vec::new(self.alloc);
        self.blades[usize::from(number)].receive(msg, images, &mut sent, log)?;
        self.send_up(number, sent.as_slice())
    }

    fn hand_to_memory(&mut self, number: u8, msg: Msg) -> Result<(), Stop>
        requires shape { IsShaped self.old }
        requires number { number < length self.old.plan.memories }
        requires may { MayBeHanded To number msg self.old }
        requires formed { IsWellFormed msg }
        ensures ok { OnOk result (MemoryHears number msg self.old self.new []) }
        ensures shape { OnOk result (IsShaped self.new) }
        ensures spent { result ≡ Err Spent → HasSpentNumber self.new }
        ensures plan { self.new.plan ≡ self.old.plan }
    {
        let Some(answer) = self.memories[usize::from(number)].handle(msg)? else {
            return Ok(());
        };
        let kind = LinkKind::From;
        send(&mut self.net, LinkName { kind, number }, &answer)
    }
}
