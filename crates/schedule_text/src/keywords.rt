//! The words that a line begins with.

ghost use Rattle.std.specs.Prelude.{◌≡◌};
ghost use Rattle.schedule_text.specs.Keyword.{keyword_of, words_wanted};

use crate::fates::Fate;
use crate::faults::LineFault;

/// The first word of a line that says something.
#[derive(Clone, Copy, Debug, PartialEq, Eq)]
pub enum Keyword {
    Step,
    Drain,
    Evict,
    Frame(Fate),
    Resend,
    Epoch,
    Settle,
    Map,
    Protect,
    Unmap,
    Migrate,
    Run,
}

#[tactic(auto, unfolding(crate::specs::Keyword::keyword_of))]
pub fn keyword_in(word: &[u8]) -> Result<Keyword, LineFault>
    ensures { result ≡ keyword_of word.now }
{
    if word == b"step".as_slice() {
        return Ok(Keyword::Step);
    }
    if word == b"drain".as_slice() {
        return Ok(Keyword::Drain);
    }
    if word == b"evict".as_slice() {
        return Ok(Keyword::Evict);
    }
    if word == b"deliver".as_slice() {
        return Ok(Keyword::Frame(Fate::Deliver));
    }
    if word == b"lose".as_slice() {
        return Ok(Keyword::Frame(Fate::Lose));
    }
    if word == b"repeat".as_slice() {
        return Ok(Keyword::Frame(Fate::Repeat));
    }
    if word == b"resend".as_slice() {
        return Ok(Keyword::Resend);
    }
    if word == b"epoch".as_slice() {
        return Ok(Keyword::Epoch);
    }
    if word == b"settle".as_slice() {
        return Ok(Keyword::Settle);
    }
    if word == b"map".as_slice() {
        return Ok(Keyword::Map);
    }
    if word == b"protect".as_slice() {
        return Ok(Keyword::Protect);
    }
    if word == b"unmap".as_slice() {
        return Ok(Keyword::Unmap);
    }
    if word == b"migrate".as_slice() {
        return Ok(Keyword::Migrate);
    }
    if word == b"run".as_slice() {
        return Ok(Keyword::Run);
    }
    Err(LineFault::Word)
}

/// How many words a line with this first word has, that word included.
pub fn words_wanted(keyword: Keyword) -> usize
    ensures { result ≡ words_wanted keyword }
{
    match keyword {
        Keyword::Epoch | Keyword::Settle => 1,
        Keyword::Step | Keyword::Drain | Keyword::Resend | Keyword::Run => 2,
        Keyword::Frame(_) => 3,
        Keyword::Evict | Keyword::Unmap => 4,
        Keyword::Map | Keyword::Protect | Keyword::Migrate => 5,
    }
}
