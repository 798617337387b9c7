//! A text cut at a byte.

ghost use Rattle.std.specs.Prelude.{◌≡◌, ◌≤◌, ◌==◌, length};
ghost use Rattle.std.specs.List.{before_first, after_first};

use plain_text::place_of;

/// What stands before the first such byte, or all where there is none.
pub fn before(text: &[u8], byte: u8) -> &[u8]
    ensures part { result.now ≡ before_first (λ b. b == byte) text.now }
    ensures short { length result.now ≤ length text.now }
{
    &text[..place_of(text, byte)]
}

/// What stands behind the first such byte, or nothing where there is none.
pub fn behind(text: &[u8], byte: u8) -> &[u8]
    ensures part { result.now ≡ after_first (λ b. b == byte) text.now }
    ensures short { length result.now ≤ length text.now }
{
    let place = place_of(text, byte);
    if place == text.len() {
        return &text[place..];
    }
    &text[place + 1..]
}
