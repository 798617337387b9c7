//! What a state of an entry grants, and what is left of it.

ghost use Rattle.std.specs.Prelude.{◌≡◌, ◌<◌, ◌^◌};
ghost use Rattle.switch_core.specs.Invariant.{IsFitState};
ghost use Rattle.switch_core.specs.Treating.{grants, granted_state, holders, left_to, same_state};

use invalidate_multicast::{is_among, only, with_blade, without};
use mind_base::State;

/// The blades that a state names.
pub fn holders(state: State) -> u8
    requires { IsFitState 8 state }
    ensures { result ≡ holders state }
{
    match state {
        State::I => 0,
        State::S { sharers } => sharers,
        State::M { owner } => only(owner),
    }
}

/// Whether the blade may read, or write, at once.
pub fn grants(write: bool, blade: u8, state: State) -> bool
    ensures { result ≡ grants write blade state }
{
    match state {
        State::I => true,
        State::S { sharers } => {
            if write {
                without(sharers, blade) == 0
            } else {
                true
            }
        }
        State::M { owner } => owner == blade,
    }
}

/// The state when it may.
pub fn granted_state(write: bool, blade: u8, state: State) -> State
    requires { blade < 8 }
    ensures { result ≡ granted_state write blade state }
{
    if write {
        return State::M { owner: blade };
    }
    match state {
        State::I => State::S {
            sharers: only(blade),
        },
        State::S { sharers } => State::S {
            sharers: with_blade(sharers, blade),
        },
        State::M { owner } => State::M { owner },
    }
}

/// What a write leaves of a state: the blade stays a sharer if it was one.
pub fn left_to(blade: u8, state: State) -> State
    requires { blade < 8 }
    ensures { result ≡ left_to blade state }
{
    match state {
        State::I => State::I,
        State::S { sharers } => {
            if is_among(sharers, blade) {
                State::S {
                    sharers: only(blade),
                }
            } else {
                State::I
            }
        }
        State::M { .. } => State::I,
    }
}

/// Whether the states are one.
pub fn same_state(a: State, b: State) -> bool
    ensures { result ≡ same_state a b }
{
    match (a, b) {
        (State::I, State::I) => true,
        (State::S { sharers }, State::S { sharers: other }) => sharers == other,
        (State::M { owner }, State::M { owner: other }) => owner == other,
        _ => false,
    }
}
