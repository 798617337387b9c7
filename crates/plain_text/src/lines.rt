//! A text cut into lines.

ghost use Rattle.std.specs.Prelude.{◌≡◌, ◌<◌, ◌≤◌, ◌==◌, ◌∷◌, length};
ghost use Rattle.std.specs.List.{position_or_len};
ghost use Rattle.std.specs.Str.Lines.{lines, strip_carriage_return};

/// The first line, without its end, and the text behind that end.
pub fn split_line(text: &[u8]) -> (&[u8], &[u8])
    requires { 0 < length text.now }
    ensures lines { lines text.now ≡ result.0.now ∷ lines result.1.now }
    ensures short { length result.0.now ≤ length text.now }
    ensures rest { length result.1.now < length text.now }
{
    let end = place_of(text, b'\n');
    if end == text.len() {
        return (text, &text[end..]);
    }
    (without_carriage_return(&text[..end]), &text[end + 1..])
}

/// The place of the first such byte, or the length where there is none.
pub fn place_of(text: &[u8], byte: u8) -> usize
    ensures place { result ≡ position_or_len (λ b. b == byte) text.now }
    ensures within { result ≤ length text.now }
{
    text.iter().position(|b| *b == byte).unwrap_or(text.len())
}

fn without_carriage_return(line: &[u8]) -> &[u8]
    ensures { result.now ≡ strip_carriage_return line.now }
{
    if !line.is_empty() && line[line.len() - 1] == b'\r' {
        return &line[..line.len() - 1];
    }
    line
}
