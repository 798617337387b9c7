//! The words of a line.

ghost use Rattle.std.specs.Prelude.{◌≡◌, ◌+◌, ◌<◌, ◌≤◌, [], ◌∷◌, length, slice_index_or};
ghost use Rattle.std.specs.List.{position_or_len};
ghost use Rattle.plain_text.specs.Blank.{is_blank};
ghost use Rattle.schedule_text.specs.Word.{words_of};

use plain_text::{blanks_at_front, first_blank};

/// How many words a line has.
pub fn word_count(line: &[u8]) -> usize
    ensures { result ≡ length (words_of line.now) }
{
    let mut count = 0;
    let mut rest = line;
    loop {
        let (word, after) = split_word(rest);
        if word.is_empty() {
            return count;
        }
        count += 1;
        rest = after;
    }
}

/// The word with this number, counted from 0; empty where there are not so many.
pub fn word(line: &[u8], index: usize) -> &[u8]
    ensures word { result.now ≡ slice_index_or (words_of line.now) index [] }
    ensures short { length result.now ≤ length line.now }
{
    let mut rest = line;
    for _ in 0..index {
        let (_, after) = split_word(rest);
        rest = after;
    }
    let (word, _) = split_word(rest);
    word
}

/// The first word and what stands behind it; both are empty where there is none.
fn split_word(line: &[u8]) -> (&[u8], &[u8])
    ensures some { 0 < length result.0.now → words_of line.now ≡ result.0.now ∷ words_of result.1.now }
    ensures none { length result.0.now ≡ 0 → words_of line.now ≡ [] }
    ensures last { length result.0.now ≡ 0 → result.1.now ≡ [] }
    ensures short { length result.0.now ≤ length line.now }
    ensures rest { length result.0.now + length result.1.now ≤ length line.now }
{
    let line = without_blanks(line);
    let end = first_blank(line);
    (&line[..end], &line[end..])
}

/// The line from its first word on.
fn without_blanks(line: &[u8]) -> &[u8]
    ensures words { words_of result.now ≡ words_of line.now }
    ensures first { position_or_len is_blank result.now ≡ 0 → result.now ≡ [] }
    ensures short { length result.now ≤ length line.now }
{
    &line[blanks_at_front(line)..]
}
