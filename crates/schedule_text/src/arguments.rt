//! The arguments of a schedule's lines.

ghost use Rattle.std.specs.Prelude.{◌≡◌, ◌<◌, ◌≤◌, ◌^◌, length, IfOk};
ghost use Rattle.schedule_text.specs.Argument.{number_up_to, number_below, perm_named, page_on, span_on, range_on};

use crate::faults::LineFault;
use crate::words::word;
use mind_base::{NumberFault, Page, Perm, Range, Span, number};

/// A number from 0 to the limit.
#[tactic(auto, unfolding(crate::specs::Argument::number_up_to))]
pub fn up_to(limit: u32, word: &[u8]) -> Result<u32, LineFault>
    requires { length word.now < 2 ^ 32 }
    ensures number { result ≡ number_up_to limit word.now }
    ensures within { IfOk result (λ n. n ≤ limit) }
{
    match number(word, u64::from(limit)) {
        Ok(n) => Ok(n as u32),
        Err(NumberFault::NotANumber { .. }) => Err(LineFault::Number),
        Err(NumberFault::TooLarge { .. }) => Err(LineFault::Range),
    }
}

/// A number below the bound.
#[tactic(auto, unfolding(crate::specs::Argument::number_below))]
pub fn below(bound: u8, word: &[u8]) -> Result<u8, LineFault>
    requires { length word.now < 2 ^ 32 }
    ensures number { result ≡ number_below bound word.now }
    ensures within { IfOk result (λ n. n < bound) }
{
    let number = up_to(u32::MAX, word)?;
    if number >= u32::from(bound) {
        return Err(LineFault::Range);
    }
    Ok(number as u8)
}

/// `r` or `rw`.
#[tactic(auto, unfolding(crate::specs::Argument::perm_named))]
pub fn perm(word: &[u8]) -> Result<Perm, LineFault>
    ensures { result ≡ perm_named word.now }
{
    if word == b"r".as_slice() {
        return Ok(Perm::R);
    }
    if word == b"rw".as_slice() {
        return Ok(Perm::Rw);
    }
    Err(LineFault::Perm)
}

/// The page that two words of a line name, from the word with this number on: domain and page number.
#[tactic(auto, unfolding(crate::specs::Argument::page_on))]
pub fn page(line: &[u8], from: usize) -> Result<Page, LineFault>
    requires short { length line.now < 2 ^ 32 }
    requires few { from < 2 ^ 32 }
    ensures { result ≡ page_on from line.now }
{
    let domain = up_to(15, word(line, from))?;
    let number = up_to(1_048_575, word(line, from + 1))?;
    Ok(Page {
        domain: domain as u8,
        number,
    })
}

/// The run of pages that the first arguments of a line name: domain, first page, number of pages.
#[tactic(auto, unfolding(crate::specs::Argument::span_on))]
pub fn span(line: &[u8]) -> Result<Span, LineFault>
    requires { length line.now < 2 ^ 32 }
    ensures { result ≡ span_on line.now }
{
    let page = page(line, 1)?;
    let pages = up_to(4096, word(line, 3))?;
    if pages == 0 || page.number + pages > 1_048_576 {
        return Err(LineFault::Range);
    }
    Ok(Span {
        domain: page.domain,
        base: page.number,
        pages,
    })
}

/// The block that the first arguments of a line name: domain, first page, logarithm of its number of pages.
#[tactic(auto, unfolding(crate::specs::Argument::range_on))]
pub fn range(line: &[u8]) -> Result<Range, LineFault>
    requires { length line.now < 2 ^ 32 }
    ensures { result ≡ range_on line.now }
{
    let page = page(line, 1)?;
    let log = up_to(9, word(line, 3))?;
    if page.number % (1 << log) != 0 {
        return Err(LineFault::Range);
    }
    Ok(Range {
        domain: page.domain,
        base: page.number,
        log: log as u8,
    })
}
