//! Fields of a word, by the places of their bits, and numbers in two's complement.

ghost use Rattle.std.specs.Prelude.{◌≡◌, ◌+◌, ◌-◌, ◌*◌, ◌^◌, ◌<◌, ◌≤◌};
ghost use Rattle.rv32_decode.specs.Fields.{field, sign_extended, complement};
ghost use Rattle.rv32_decode.specs.Instr.{IsSigned};

/// Bits `high` down to `low` of a word, as a number.
pub(crate) fn bits(word: u32, high: u32, low: u32) -> u32
    requires order { low ≤ high }
    requires part { high < low + 31 }
    requires inside { high < 32 }
    ensures value { result ≡ field word high low }
    ensures below { result < 2 ^ (high + 1 - low) }
{
    (word >> low) % (1 << (high + 1 - low))
}

/// The number that `value` spells in two's complement, where the sign bit is worth `half`.
pub(crate) fn signed(value: u32, half: u32) -> i32
    requires half { half ≤ 2 ^ 20 }
    requires below { value < 2 * half }
    ensures value { result ≡ sign_extended half value }
{
    if value < half {
        value as i32
    } else {
        value as i32 - 2 * half as i32
    }
}

/// The number that spells `value` in two's complement, where the sign bit is worth `half`.
pub(crate) fn unsigned(value: i32, half: u32) -> u32
    requires half { half ≤ 2 ^ 20 }
    requires range { IsSigned half value }
    ensures value { result ≡ complement half value }
    ensures below { result < 2 * half }
{
    if value < 0 {
        (value + 2 * half as i32) as u32
    } else {
        value as u32
    }
}
