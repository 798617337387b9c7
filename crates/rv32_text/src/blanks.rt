//! Blanks in a line, and what stands between them.

ghost use Rattle.std.specs.Prelude.{◌≡◌, ◌≤◌, length};
ghost use Rattle.rv32_text.specs.Blank.{without_blanks_before, without_blanks_behind, trimmed as trimmed_of};

use plain_text::{blanks_at_front, is_blank};

/// The text from its first byte on that is no blank.
#[tactic(auto, unfolding(crate::specs::Blank::without_blanks_before))]
pub fn from_first(text: &[u8]) -> &[u8]
    ensures from { result.now ≡ without_blanks_before text.now }
    ensures short { length result.now ≤ length text.now }
{
    &text[blanks_at_front(text)..]
}

/// The text up to its last byte that is no blank.
#[tactic(auto, unfolding(crate::specs::Blank::without_blanks_behind))]
fn up_to_last(text: &[u8]) -> &[u8]
    ensures up_to { result.now ≡ without_blanks_behind text.now }
    ensures short { length result.now ≤ length text.now }
{
    let mut end = text.len();
    while end > 0 && is_blank(text[end - 1]) {
        end -= 1;
    }
    &text[..end]
}

/// The text without the blanks at both ends.
pub fn trimmed(text: &[u8]) -> &[u8]
    ensures trimmed { result.now ≡ trimmed_of text.now }
    ensures short { length result.now ≤ length text.now }
{
    up_to_last(from_first(text))
}
