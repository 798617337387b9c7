//! Blanks in a line, and what stands between them.

ghost use Rattle.std.specs.Prelude.{◌≡◌, ◌≤◌, length};
ghost use Rattle.std.specs.List.{prefix_len, position_or_len};
ghost use Rattle.plain_text.specs.Blank.{is_blank as is_blank_of, is_text as is_text_of};

/// Whether each byte is a blank or prints.
pub fn is_text(line: &[u8]) -> bool
    ensures { result ≡ is_text_of line.now }
{
    line.iter().all(|b| is_blank(*b) || b.is_ascii_graphic())
}

/// How many blanks stand before the first byte that is none.
pub fn blanks_at_front(line: &[u8]) -> usize
    ensures place { result ≡ prefix_len is_blank_of line.now }
    ensures within { result ≤ length line.now }
{
    for (i, b) in line.iter().enumerate() {
        if !is_blank(*b) {
            return i;
        }
    }
    line.len()
}

/// The place of the first blank, or the length where there is none.
pub fn first_blank(line: &[u8]) -> usize
    ensures place { result ≡ position_or_len is_blank_of line.now }
    ensures within { result ≤ length line.now }
{
    line.iter().position(|b| is_blank(*b)).unwrap_or(line.len())
}

/// Whether the byte is a space or a tab.
pub fn is_blank(byte: u8) -> bool
    ensures { result ≡ is_blank_of byte }
{
    byte == b' ' || byte == b'\t'
}
