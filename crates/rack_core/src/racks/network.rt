//! Events at which a wire or a link changes, and no node hears of it.

ghost use Rattle.std.specs.Prelude.{◌≡◌, [], Err, OnOk, List};
ghost use Rattle.mind_base.specs.declared.events.Event.TheVariants as event;
ghost use Rattle.mind_base.specs.declared.failures.Stop.TheVariants.{Spent};
ghost use Rattle.mind_base.specs.declared.images.Image.{Image as image};
ghost use Rattle.rack_core.specs.Calls.{HasLink};
ghost use Rattle.rack_core.specs.Events.{Leads};
ghost use Rattle.rack_core.specs.Shape.{IsShaped};

use crate::racks::Rack;
use mind_base::{LinkName, NoMemory, Side};

impl Rack {
    /// A frame is lost.
    pub(super) fn lose(&mut self, link: LinkName, side: Side, k: u32)
        requires shape { IsShaped self.old }
        requires link { HasLink self.old.plan link }
        ensures leads { (images : List image) → Leads images (event.Lose link side k) self.old self.new [] }
        ensures shape { IsShaped self.new }
        ensures plan { self.new.plan ≡ self.old.plan }
    {
        self.net.lose(link, side, k);
    }

    /// A frame comes twice.
    pub(super) fn repeat(&mut self, link: LinkName, side: Side, k: u32) -> Result<(), NoMemory>
        requires shape { IsShaped self.old }
        requires link { HasLink self.old.plan link }
        ensures leads { (images : List image) → OnOk result (Leads images (event.Repeat link side k) self.old self.new []) }
        ensures shape { OnOk result (IsShaped self.new) }
        ensures plan { self.new.plan ≡ self.old.plan }
    {
        self.net.repeat(link, side, k)
    }

    /// All messages that a link keeps are sent again.
    pub(super) fn resend(&mut self, link: LinkName) -> Result<(), NoMemory>
        requires shape { IsShaped self.old }
        requires link { HasLink self.old.plan link }
        ensures leads { (images : List image) → OnOk result (Leads images (event.Resend link) self.old self.new []) }
        ensures shape { OnOk result (IsShaped self.new) }
        ensures plan { self.new.plan ≡ self.old.plan }
    {
        self.net.resend(link)
    }
}
