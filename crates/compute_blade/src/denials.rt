//! The fault of an access whose page is denied.

ghost use Rattle.std.specs.Prelude.{◌≡◌};
ghost use Rattle.compute_blade.specs.Denials.{locked_fault, denial_of as denial_of_act, denial_in as denial_in_found};

use crate::kept::Denial;
use hart_core::{Act, LockedKind};
use hart_effect::Found;
use mind_base::FaultKind;

fn kind_denied(kind: LockedKind) -> FaultKind
    ensures { result ≡ locked_fault kind }
{
    match kind {
        LockedKind::Lr => FaultKind::Load,
        LockedKind::Sc | LockedKind::Amo { .. } => FaultKind::Store,
    }
}

fn denial_of(asked: Act) -> Option<Denial>
    ensures { result ≡ denial_of_act asked }
{
    match asked {
        Act::Load { address, .. } => Some(Denial {
            kind: FaultKind::Load,
            address,
        }),
        Act::Store { address, .. } => Some(Denial {
            kind: FaultKind::Store,
            address,
        }),
        Act::Locked { kind, address, .. } => Some(Denial {
            kind: kind_denied(kind),
            address,
        }),
        Act::Next { .. } | Act::Fence { .. } | Act::Call | Act::Jumped { .. } | Act::Broke => None,
    }
}

/// The fault of an access that is denied: of a load for a load or LR, else of a store. None where the
/// instruction makes no access.
pub fn denial_in(found: Found) -> Option<Denial>
    ensures { result ≡ denial_in_found found }
{
    match found {
        Found::Outside => None,
        Found::Unknown { .. } => None,
        Found::Asks { asked } => denial_of(asked),
    }
}
