//! Numbers in decimal or hexadecimal digits, up to a limit.

ghost use Rattle.std.specs.Prelude.{◌≡◌, ◌+◌, ◌*◌, ◌≤◌, ◌<◌, ◌^◌, length};
ghost use Rattle.std.specs.List.{prefix_len};
ghost use Rattle.std.specs.Char.{digit_value, is_digit};
ghost use Rattle.mind_base.specs.Number.{number_of, numeral_of, limited_value};

/// Why a text is no number within a limit, and at which byte of it, counted from 0: the first that fits
/// no form (or the length, where the text ends too early), or the digit with which the value passes the limit.
#[derive(Clone, Copy, Debug, PartialEq, Eq)]
pub enum NumberFault {
    NotANumber { at: u32 },
    TooLarge { at: u32 },
}

/// Reads decimal digits, or `0x` and hexadecimal digits of either case, as a number up to the limit.
pub fn number(text: &[u8], limit: u64) -> Result<u64, NumberFault>
    requires { length text.now < 2 ^ 32 }
    ensures { result ≡ number_of text.now limit }
{
    if text.starts_with(b"0x") {
        numeral(16, 2, &text[2..], limit)
    } else {
        numeral(10, 0, text, limit)
    }
}

fn numeral(radix: u8, from: u32, digits: &[u8], limit: u64) -> Result<u64, NumberFault>
    requires some { 0 < radix }
    requires most { radix ≤ 16 }
    requires short { from + length digits.now < 2 ^ 32 }
    ensures { result ≡ numeral_of radix from digits.now limit }
{
    let whole = digits_at_front(radix, digits);
    if digits.is_empty() || whole < digits.len() {
        return Err(NumberFault::NotANumber {
            at: from + whole as u32,
        });
    }
    value(radix, from, digits, limit)
}

fn digits_at_front(radix: u8, text: &[u8]) -> usize
    ensures { result ≡ prefix_len (λ b. is_digit b radix) text.now }
{
    for (i, b) in text.iter().enumerate() {
        if digit(*b) >= radix {
            return i;
        }
    }
    text.len()
}

fn value(radix: u8, from: u32, digits: &[u8], limit: u64) -> Result<u64, NumberFault>
    requires some { 0 < radix }
    requires most { radix ≤ 16 }
    requires short { from + length digits.now < 2 ^ 32 }
    ensures { result ≡ limited_value radix from digits.now limit }
{
    let mut value: u64 = 0;
    for (i, b) in digits.iter().enumerate() {
        let next = longer(value, radix, digit(*b));
        if next > u128::from(limit) {
            return Err(NumberFault::TooLarge {
                at: from + i as u32,
            });
        }
        value = next as u64;
    }
    Ok(value)
}

fn longer(value: u64, radix: u8, digit: u8) -> u128
    requires { radix ≤ 16 }
    ensures { result ≡ value * radix + digit }
{
    u128::from(value) * u128::from(radix) + u128::from(digit)
}

fn digit(byte: u8) -> u8
    ensures { result ≡ digit_value byte }
{
    match byte {
        b'0'..=b'9' => byte - b'0',
        b'A'..=b'Z' => byte - b'A' + 10,
        b'a'..=b'z' => byte - b'a' + 10,
        _ => 36,
    }
}
