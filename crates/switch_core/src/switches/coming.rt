//! Which messages may come.

ghost use Rattle.std.specs.Prelude.{◌≡◌, ◌↔◌, IsTrue, All, Any, true, false};
ghost use Rattle.invalidate_multicast.specs.Transition.{WaitsFor};
ghost use Rattle.request_list.specs.Requests.{is_of};
ghost use Rattle.switch_core.specs.Handling.{MayComeToSwitch, MayComeFrom, MayComeUp};

use super::SwitchCore;
use crate::endings::is_awaited;
use mind_base::{LinkKind, LinkName, Page};
use wire_msg::Msg;

impl SwitchCore {
    /// Whether the blade has no request for the page.
    fn is_new(&self, blade: u8, page: Page) -> bool
        ensures { IsTrue result ↔ All (λ r. is_of blade page r ≡ false) self.now.requests }
    {
        match self.requests.find(blade, page) {
            Some(_) => false,
            None => true,
        }
    }

    /// Whether the page is being fetched for the blade.
    fn is_fetching(&self, blade: u8, page: Page) -> bool
        ensures { IsTrue result ↔ Any (λ r. (is_of blade page r ≡ true) × (r.fetching ≡ true)) self.now.requests }
    {
        match self.requests.find(blade, page) {
            Some(r) => r.fetching,
            None => false,
        }
    }

    /// Whether a blade may send the message now.
    fn may_come_up(&self, blade: u8, msg: &Msg) -> bool
        ensures { IsTrue result ↔ MayComeUp self.now blade msg.now }
    {
        match msg {
            Msg::Get { page, .. } => self.is_new(blade, *page),
            Msg::Back { page, .. } => self.table.home(*page).is_some(),
            Msg::Ack { number, .. } => is_awaited(&self.directory, *number, blade),
            _ => false,
        }
    }

    /// Whether a memory blade may send the message now.
    fn may_come_from(&self, msg: &Msg) -> bool
        ensures { IsTrue result ↔ MayComeFrom self.now msg.now }
    {
        let Msg::Image { blade, page, .. } = msg else {
            return false;
        };
        let Some(blade) = blade else {
            return false;
        };
        self.is_fetching(*blade, *page)
    }

    /// Whether the message may come on that link now, as `receive` wants it.
    pub fn may_come(&self, from: &LinkName, msg: &Msg) -> bool
        ensures { IsTrue result ↔ MayComeToSwitch self.now from.now msg.now }
    {
        match from.kind {
            LinkKind::Up => {
                (from.number as usize) < self.plan.frames.len()
                    && self.may_come_up(from.number, msg)
            }
            LinkKind::From => {
                (from.number as usize) < self.plan.memories.len() && self.may_come_from(msg)
            }
            LinkKind::Down | LinkKind::To => false,
        }
    }
}
