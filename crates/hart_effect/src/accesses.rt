//! An access of memory: what it does, where, and which permission it wants.

ghost use Rattle.std.specs.Prelude.{◌≡◌, ◌<◌, IfSome};
ghost use Rattle.hart_core.specs.Act.{IsWellFormedAct};
ghost use Rattle.hart_effect.specs.Access.{access_of, is_aligned, writes, locked_kind, access_allowed, fault_of};
ghost use Rattle.mind_base.specs.Place.{place_of};

use hart_core::{Act, LockedKind, load_size};
use mind_base::{FaultKind, Perm, Place};
use std::marker::Model;

/// What an access does: it reads; it writes once it drains from the thread's buffer; or it writes in the
/// step of its instruction, as SC and AMO do.
#[derive(Clone, Copy, Debug, PartialEq, Eq)]
pub enum AccessKind {
    Reads,
    WritesLater,
    WritesAtOnce,
}

/// An access of a thread of a domain, 0 to 15: the address of its lowest byte, and how many bytes it has,
/// 1, 2 or 4.
#[derive(Clone, Copy, Debug, PartialEq, Eq)]
pub struct Access {
    pub kind: AccessKind,
    pub domain: u8,
    pub address: u32,
    pub size: u8,
}

impl Model for Access {
    ghost use Rattle.std.specs.Prelude.{◌<◌};
    ghost use Rattle.hart_core.specs.Memory.{IsAccessSize};
    ghost use Rattle.hart_effect.specs.Access.{AccessView};

    ghost Value = { AccessView };

    ghost view = { λ a. record { kind = a.kind; domain = a.domain; address = a.address; size = a.size } };

    ghost invariant = { λ a. (a.domain < 16) × IsAccessSize a.size };

    ghost inverse = { λ v. record { kind = v.kind; domain = v.domain; address = v.address; size = v.size } };
}

impl Access {
    /// The access that an instruction of a thread of a domain makes, if it makes one.
    pub fn of(asked: Act, domain: u8) -> Option<Access>
        requires domain { domain < 16 }
        requires well_formed { IsWellFormedAct asked }
        ensures { result ≡ access_of asked domain }
    {
        match asked {
            Act::Load { kind, address, .. } => Some(Access {
                kind: AccessKind::Reads,
                domain,
                address,
                size: load_size(kind),
            }),
            Act::Store { size, address, .. } => Some(Access {
                kind: AccessKind::WritesLater,
                domain,
                address,
                size,
            }),
            Act::Locked { kind, address, .. } => Some(Access {
                kind: locked_kind(kind),
                domain,
                address,
                size: 4,
            }),
            Act::Next { .. } | Act::Fence { .. } | Act::Call | Act::Jumped { .. } | Act::Broke =>
                None,
        }
    }

    /// The byte that it names first.
    pub fn place(self) -> Place
        ensures { result ≡ place_of self.domain self.address }
    {
        Place::of(self.domain, self.address)
    }

    /// Whether it stands at a multiple of its size. Any other access is a fault, whatever the page.
    pub fn is_aligned(self) -> bool
        ensures { result ≡ is_aligned self }
    {
        self.address % u32::from(self.size) == 0
    }
}

impl AccessKind {
    /// Whether such an access writes, in its step or later.
    pub fn writes(self) -> bool
        ensures { result ≡ writes self }
    {
        match self {
            AccessKind::Reads => false,
            AccessKind::WritesLater => true,
            AccessKind::WritesAtOnce => true,
        }
    }

    /// Whether a page of this permission allows it.
    pub(crate) fn is_allowed(self, perm: Perm) -> bool
        ensures { result ≡ access_allowed self perm }
    {
        match self {
            AccessKind::Reads => perm.may_read(),
            AccessKind::WritesLater => perm.may_write(),
            AccessKind::WritesAtOnce => perm.may_write(),
        }
    }

    /// The fault by which it ends where its page does not allow it.
    pub(crate) fn fault(self) -> FaultKind
        ensures { result ≡ fault_of self }
    {
        match self {
            AccessKind::Reads => FaultKind::Load,
            AccessKind::WritesLater => FaultKind::Store,
            AccessKind::WritesAtOnce => FaultKind::Store,
        }
    }
}

fn locked_kind(kind: LockedKind) -> AccessKind
    ensures { result ≡ locked_kind kind }
{
    match kind {
        LockedKind::Lr => AccessKind::Reads,
        LockedKind::Sc | LockedKind::Amo { .. } => AccessKind::WritesAtOnce,
    }
}
