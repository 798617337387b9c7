//! What a blade keeps beside its pages: reservations, requests, needs and denials.

use hart_effect::Found;
use mind_base::{FaultKind, Granule, Page, ThreadPlan};

/// A reservation as the blade keeps it: the granule, and the tag that it had when LR read it.
#[derive(Clone, Copy, Debug, PartialEq, Eq)]
pub struct Reservation {
    pub granule: Granule,
    pub tag: u64,
}

/// What of a hart waits for a page.
#[derive(Clone, Copy, Debug, PartialEq, Eq)]
pub enum Waits {
    Step,
    Drain,
}

/// A request for a page that is out, and the hart whose step or drain waits for it.
#[derive(Clone, Copy, Debug, PartialEq, Eq)]
pub struct Asked {
    pub page: Page,
    pub write: bool,
    pub hart: u8,
    pub waits: Waits,
}

/// The page that an instruction or a drain needs, and whether it is asked for to be written where it is
/// not held.
#[derive(Clone, Copy, Debug, PartialEq, Eq)]
pub struct Need {
    pub page: Page,
    pub write: bool,
}

/// The fault that ends a hart whose access is denied, and the address of the access.
#[derive(Clone, Copy, Debug, PartialEq, Eq)]
pub struct Denial {
    pub kind: FaultKind,
    pub address: u32,
}

/// How the switch answered a request: with the page, or not.
#[derive(Clone, Copy, Debug, PartialEq, Eq)]
pub enum Answer {
    Filled,
    Denied,
}

/// One of the rack's harts that is to move: its number, below 64, and its thread, of a domain below 16.
#[derive(Clone, Copy, Debug, PartialEq, Eq)]
pub struct Mover {
    pub hart: u8,
    pub plan: ThreadPlan,
}

/// A hart that is to take a step, and what it found at its pc.
#[derive(Clone, Copy, Debug, PartialEq, Eq)]
pub struct Doing {
    pub mover: Mover,
    pub found: Found,
    pub pc: u32,
}

/// What befalls a hart beside its steps and its drains: one of them waits for a page, or waits no longer, or
/// the hart ends at `pc` by the fault of an access that was denied.
#[derive(Clone, Copy, Debug, PartialEq, Eq)]
pub enum HartChange {
    Waits { waits: Waits },
    Wakes { waits: Waits },
    Faults { denial: Denial, pc: u32 },
}

/// What the switch takes from the blade: pages, or the leave to write them.
#[derive(Clone, Copy, Debug, PartialEq, Eq)]
pub enum Withdrawal {
    Pages,
    Writing,
}
