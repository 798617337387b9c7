//! Events at which a compute blade acts by itself.

ghost use Rattle.std.specs.Prelude.{◌≡◌, ◌<◌, List, Some, length, slice_get, Err, OnOk};
ghost use Rattle.std.specs.List.{AllByRecursion};
ghost use Rattle.mind_base.specs.Fit.{FitImages};
ghost use Rattle.mind_base.specs.declared.events.Event.TheVariants as event;
ghost use Rattle.mind_base.specs.declared.failures.Stop.TheVariants.{Spent};
ghost use Rattle.mind_base.specs.declared.images.Image.{Image as image};
ghost use Rattle.mind_base.specs.declared.links.LinkKind.TheVariants.{Up};
ghost use Rattle.mind_base.specs.declared.plans.ThreadPlan.{ThreadPlan};
ghost use Rattle.wire_msg.specs.WellFormed.{FieldsAgree};
ghost use Rattle.rack_net.specs.Net.{IsNet, NetView};
ghost use Rattle.rack_core.specs.Calls.{HasSpentLink, IsKept, Notes};
ghost use Rattle.rack_core.specs.Events.{Leads, SendsAll, on};
ghost use Rattle.rack_core.specs.HartActs.{hart_event};
ghost use Rattle.rack_core.specs.Leaves.{Leaves};
ghost use Rattle.rack_core.specs.Rack.{with_net};

use crate::acts::{HartAct, let_act};
use crate::racks::Rack;
use crate::sends::send_each;
use mind_base::{Image, LinkKind, LinkName, Log, Page, Stop};
use wire_msg::Msg;

impl Rack {
    /// A step or a drain of the rack's hart `hart`.
    pub(super) fn act(
        &mut self,
        act: HartAct,
        hart: u8,
        images: &[Image],
        log: &mut Log,
    ) -> Result<(), Stop>
        requires kept { IsKept self.old }
        requires hart { hart < length self.old.plan.threads }
        requires images { FitImages self.old.plan.images images.now }
        ensures leads { OnOk result (Notes (Leads images.now (hart_event act hart) self.old self.new) log.old.notes log.new.notes) }
        ensures leaves { Leaves result self.old self.new log.old.notes log.new.notes }
    {
        let number = self.blade_of(hart);
        let mut sent = Vec::new(self.alloc);
        let blade = &mut self.blades[usize::from(number)];
        let_act(act, hart, blade, images, &mut sent, log)?;
        self.send_up(number, sent.as_slice())
    }

    /// A page is given up by a blade, if it holds it.
    pub(super) fn evict(&mut self, number: u8, page: Page, log: &mut Log) -> Result<(), Stop>
        requires kept { IsKept self.old }
        requires number { number < length self.old.plan.frames }
        ensures leads { (images : List image) → OnOk result (Notes (Leads images (event.Evict number page) self.old self.new) log.old.notes log.new.notes) }
        ensures leaves { Leaves result self.old self.new log.old.notes log.new.notes }
    {
        let mut sent = Vec::new(self.alloc);
        self.blades[usize::from(number)].evict(page, &mut sent, log)?;
        self.send_up(number, sent.as_slice())
    }

    /// The number of the blade of thread `hart`.
    fn blade_of(&self, hart: u8) -> u8
        requires { hart < length self.now.plan.threads }
        ensures { (thread : ThreadPlan) × (slice_get self.now.plan.threads hart ≡ Some thread) × (result ≡ thread.blade) }
    {
        self.plan.threads.as_slice()[usize::from(hart)].blade
    }

    /// Sends what a blade sent on its link up to the switch.
    pub(super) fn send_up(&mut self, number: u8, sent: &[Msg]) -> Result<(), Stop>
        requires of_rack { number < self.old.net.blades }
        requires fields { AllByRecursion FieldsAgree sent.now }
        ensures ok { OnOk result ((net : NetView) × SendsAll (on Up number sent.now) self.old.net net × (self.new ≡ with_net net self.old)) }
        ensures spent { result ≡ Err Spent → HasSpentLink self.new.net }
        ensures net { IsNet self.old.net → IsNet self.new.net }
        ensures plan { self.new.plan ≡ self.old.plan }
    {
        let kind = LinkKind::Up;
        send_each(&mut self.net, LinkName { kind, number }, sent)
    }
}
