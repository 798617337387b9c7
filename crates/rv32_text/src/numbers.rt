//! Numbers as operands.

ghost use Rattle.std.specs.Prelude.{◌≡◌, ◌<◌, ◌≤◌, ◌^◌, pos, neg_ℤ, ◌≤ℤ◌, ◌<ℤ◌, length, IfOk, IfSome};
ghost use Rattle.rv32_decode.specs.Instr.{IsSigned, IsEven};
ghost use Rattle.rv32_text.specs.Number.{magnitude_of, integer_of, number_in, between as between_of, up_to as up_to_of, signed_within as signed_within_of, even_within as even_within_of};

use crate::faults::TextFault;
use mind_base::{NumberFault, number};

/// The number that a text without a sign writes. Above the greatest word it counts as 2 ^ 32.
#[tactic(auto, unfolding(crate::specs::Number::magnitude_of))]
fn magnitude(text: &[u8]) -> Option<u64>
    requires { length text.now < 2 ^ 32 }
    ensures number { result ≡ magnitude_of text.now }
    ensures within { IfSome result (λ n. n ≤ 2 ^ 32) }
{
    match number(text, u64::from(u32::MAX)) {
        Ok(n) => Some(n),
        Err(NumberFault::NotANumber { .. }) => None,
        Err(NumberFault::TooLarge { .. }) => Some(1 << 32),
    }
}

/// The number that a text writes, with a `-` before it or without.
#[tactic(auto, unfolding(crate::specs::Number::integer_of))]
fn integer(text: &[u8]) -> Option<i64>
    requires { length text.now < 2 ^ 32 }
    ensures number { result ≡ integer_of text.now }
{
    if text.starts_with(b"-") {
        let size = magnitude(&text[1..])?;
        return Some(-(size as i64));
    }
    let size = magnitude(text)?;
    Some(size as i64)
}

/// An operand that is to be a number.
#[tactic(auto, unfolding(crate::specs::Number::number_in))]
pub fn number_operand(text: &[u8]) -> Result<i64, TextFault>
    requires { length text.now < 2 ^ 32 }
    ensures { result ≡ number_in text.now }
{
    integer(text).ok_or(TextFault::Operand)
}

/// A number from `low` to below `above`.
#[tactic(auto, unfolding(crate::specs::Number::between))]
fn between(low: i64, above: i64, number: i64) -> Result<i64, TextFault>
    ensures number { result ≡ between_of low above number }
    ensures low { IfOk result (λ n. low ≤ℤ n) }
    ensures above { IfOk result (λ n. n <ℤ above) }
{
    if number < low || number >= above {
        return Err(TextFault::Range);
    }
    Ok(number)
}

/// A number that has a place in two's complement, where the sign bit is worth `half`.
#[tactic(auto, unfolding(crate::specs::Number::signed_within))]
pub fn signed_within(half: u32, number: i64) -> Result<i32, TextFault>
    requires { half ≤ 2 ^ 20 }
    ensures number { result ≡ signed_within_of half number }
    ensures within { IfOk result (IsSigned half) }
{
    let half = i64::from(half);
    let number = between(-half, half, number)?;
    Ok(number as i32)
}

/// The same for an offset, which is even.
#[tactic(auto, unfolding(crate::specs::Number::even_within))]
pub fn even_within(half: u32, offset: i64) -> Result<i32, TextFault>
    requires { half ≤ 2 ^ 20 }
    ensures number { result ≡ even_within_of half offset }
    ensures within { IfOk result (IsSigned half) }
    ensures even { IfOk result IsEven }
{
    let offset = signed_within(half, offset)?;
    if offset.unsigned_abs() % 2 != 0 {
        return Err(TextFault::Range);
    }
    Ok(offset)
}

/// A number from 0 to the greatest.
#[tactic(auto, unfolding(crate::specs::Number::up_to))]
pub fn up_to(most: u32, number: i64) -> Result<u32, TextFault>
    ensures number { result ≡ up_to_of most number }
    ensures within { IfOk result (λ n. n ≤ most) }
{
    let number = between(0, i64::from(most) + 1, number)?;
    Ok(number as u32)
}
