//! The numbers, pages and ranges of a journal's lines.

ghost use Rattle.std.specs.Prelude.{◌≡◌, ℕ, ◌<◌, ◌≤◌, ◌^◌, ◌++◌, ◌∷◌, List, false, length, IfSome, MatchOption};
ghost use Rattle.std.specs.List.{prefix_len};
ghost use Rattle.std.specs.Char.{digit_value, is_digit};
ghost use Rattle.std.specs.Str.Parse.{AllDigits};
ghost use Rattle.mind_base.specs.Page.{PageView};
ghost use Rattle.mind_base.specs.Range.{RangeView};
ghost use Rattle.std.specs.Fmt.{decimal};
ghost use Rattle.journal_text.specs.Journal.{page_text, range_text, IsNotedPage, IsBlock};

use mind_base::{Page, Range};

/// The numbers of harts are less than this.
pub const THREADS: u32 = 64;

/// The numbers of compute blades are less than this.
pub const BLADES: u32 = 8;

/// The numbers of events and of commands are less than this.
pub const EVENTS: u32 = 1_000_000;

const DOMAINS: u32 = 16;

/// The pages of a domain.
const PAGES: u32 = 0x10_0000;

/// The value of a digit or letter as a digit; 36 for any other byte.
fn digit(byte: u8) -> u32
    ensures { result ≡ digit_value byte }
{
    char::from(byte).to_digit(36).unwrap_or(36)
}

/// How many digits the text begins with.
fn digit_count(text: &[u8]) -> usize
    ensures { result ≡ prefix_len (λ b. is_digit b 10) text.now }
{
    for (i, b) in text.iter().enumerate() {
        if !char::from(*b).is_digit(10) {
            return i;
        }
    }
    text.len()
}

/// The number below a bound that these digits write without a leading zero.
fn value_of(digits: &[u8], below: u32) -> Option<u32>
    requires digits { AllDigits 10 digits.now }
    requires some { 0 < below }
    requires few { below ≤ 2 ^ 20 }
    ensures { MatchOption result ((n : ℕ) → n < below → digits.now ≡ decimal n → ⊥) (λ n. (n < below) × (digits.now ≡ decimal n)) }
{
    if digits.is_empty() {
        return None;
    }
    if digits[0] == b'0' && digits.len() > 1 {
        return None;
    }
    let mut value: u32 = 0;
    for byte in digits {
        value = value * 10 + digit(*byte);
        if value >= below {
            return None;
        }
    }
    Some(value)
}

/// A number below a bound up to the byte that ends it, and what follows that byte.
pub fn number_before(text: &[u8], end: u8, below: u32) -> Option<(u32, &[u8])>
    requires end { is_digit end 10 ≡ false }
    requires some { 0 < below }
    requires few { below ≤ 2 ^ 20 }
    ensures found { IfSome result (λ read. (read.0 < below) × (text.now ≡ decimal read.0 ++ end ∷ read.1.now)) }
    ensures only { (n : ℕ) (rest : List ℕ) → n < below → text.now ≡ decimal n ++ end ∷ rest → MatchOption result ⊥ (λ read. (read.0 ≡ n) × (read.1.now ≡ rest)) }
{
    let count = digit_count(text);
    if count == text.len() {
        return None;
    }
    if text[count] != end {
        return None;
    }
    let (digits, rest) = text.split_at(count);
    match value_of(digits, below) {
        None => None,
        Some(value) => Some((value, &rest[1..])),
    }
}

/// A page up to the byte that ends it, and what follows that byte.
pub fn page_before(text: &[u8], end: u8) -> Option<(Page, &[u8])>
    requires { is_digit end 10 ≡ false }
    ensures found { IfSome result (λ read. IsNotedPage read.0 × (text.now ≡ page_text read.0 ++ end ∷ read.1.now)) }
    ensures only { (page : PageView) (rest : List ℕ) → IsNotedPage page → text.now ≡ page_text page ++ end ∷ rest → MatchOption result ⊥ (λ read. (read.0 ≡ page) × (read.1.now ≡ rest)) }
{
    let (domain, rest) = number_before(text, b' ', DOMAINS)?;
    let (number, rest) = number_before(rest, end, PAGES)?;
    let page = Page {
        domain: domain as u8,
        number,
    };
    Some((page, rest))
}

/// A block up to the byte that ends it, and what follows that byte.
pub fn range_before(text: &[u8], end: u8) -> Option<(Range, &[u8])>
    requires { is_digit end 10 ≡ false }
    ensures found { IfSome result (λ read. IsBlock read.0 × (text.now ≡ range_text read.0 ++ end ∷ read.1.now)) }
    ensures only { (range : RangeView) (rest : List ℕ) → IsBlock range → text.now ≡ range_text range ++ end ∷ rest → MatchOption result ⊥ (λ read. (read.0 ≡ range) × (read.1.now ≡ rest)) }
{
    let (domain, rest) = number_before(text, b' ', DOMAINS)?;
    let (base, rest) = number_before(rest, b' ', PAGES)?;
    let (log, rest) = number_before(rest, end, 10)?;
    let log = log as u8;
    if base % (1 << log) != 0 {
        return None;
    }
    let range = Range {
        domain: domain as u8,
        base,
        log,
    };
    Some((range, rest))
}
