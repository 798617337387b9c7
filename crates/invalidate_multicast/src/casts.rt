//! Sets of blades, and the messages that tell each of a set.

ghost use Rattle.std.specs.Prelude.{◌≡◌, ◌<◌, ◌^◌, ℕ, false, IfOk};
ghost use Rattle.invalidate_multicast.specs.Blades.{has_blade, with_blade, without_blade, casts_of};

use mind_base::NoMemory;
use std::alloc::Global;

/// A message that goes to the blade with this number.
#[derive(Clone, Copy, Debug, PartialEq, Eq)]
pub struct Cast {
    pub blade: u8,
}

/// Whether the blade is one of the set.
pub fn is_among(blades: u8, blade: u8) -> bool
    ensures { result ≡ has_blade blades blade }
{
    blade < 8 && (blades >> blade) % 2 == 1
}

/// The set of this blade alone.
pub fn only(blade: u8) -> u8
    requires { blade < 8 }
    ensures { result ≡ 2 ^ blade }
{
    1 << blade
}

/// The set with one blade more.
pub fn with_blade(blades: u8, blade: u8) -> u8
    requires { blade < 8 }
    ensures { result ≡ with_blade blades blade }
{
    if is_among(blades, blade) {
        blades
    } else {
        blades + only(blade)
    }
}

/// The set without this blade.
pub fn without(blades: u8, blade: u8) -> u8
    ensures rest { result ≡ without_blade blades blade }
    ensures gone { has_blade result blade ≡ false }
    ensures others { (other : ℕ) → (other ≡ blade → ⊥)
        → has_blade result other ≡ has_blade blades other }
{
    if is_among(blades, blade) {
        blades - only(blade)
    } else {
        blades
    }
}

/// A message to each blade whose bit is set, once, by rising number.
pub fn targets(alloc: Global, blades: u8) -> Result<Vec<Cast>, NoMemory>
    ensures { IfOk result (λ casts. casts.items ≡ casts_of blades) }
{
    let mut casts = Vec::new(alloc);
    for blade in 0..8 {
        if is_among(blades, blade) {
            casts.push(Cast { blade })?;
        }
    }
    Ok(casts)
}
