//! One line of a schedule: an event, or rounds of steps.

ghost use Rattle.std.specs.Prelude.{◌≡◌, ◌<◌, ◌^◌, length, IfOk};
ghost use Rattle.schedule_text.specs.Event.{IsEventIn, IsEntryIn};
ghost use Rattle.schedule_text.specs.Entry.{entry_of, worded, said, frame_event, permission_on, one_command};

use crate::arguments::{below, page, perm, range, span, up_to};
use crate::fates::{Fate, befalls};
use crate::faults::LineFault;
use crate::keywords::{Keyword, keyword_in, words_wanted};
use crate::links::{link, wire};
use crate::sizes::Sizes;
use crate::words::{word, word_count};
use mind_base::{Command, Event, Perm, Span};
use plain_text::is_text;

/// What a line says: nothing, one event, or a number of rounds.
#[derive(Clone, Copy, Debug, PartialEq, Eq)]
pub enum Entry {
    Nothing,
    One(Event),
    Rounds(u32),
}

/// What a line says, or what is wrong with it.
#[tactic(auto, unfolding(crate::specs::Entry::entry_of))]
pub fn entry_in(sizes: Sizes, line: &[u8]) -> Result<Entry, LineFault>
    requires { length line.now < 2 ^ 32 }
    ensures reads { result ≡ entry_of sizes line.now }
    ensures fits { IfOk result (IsEntryIn sizes) }
{
    if !is_text(line) {
        return Err(LineFault::Text);
    }
    let first = word(line, 0);
    if first.is_empty() || first[0] == b'#' {
        return Ok(Entry::Nothing);
    }
    worded(sizes, line)
}

#[tactic(auto, unfolding(crate::specs::Entry::worded))]
fn worded(sizes: Sizes, line: &[u8]) -> Result<Entry, LineFault>
    requires { length line.now < 2 ^ 32 }
    ensures reads { result ≡ worded sizes line.now }
    ensures fits { IfOk result (IsEntryIn sizes) }
{
    let keyword = keyword_in(word(line, 0))?;
    if word_count(line) != words_wanted(keyword) {
        return Err(LineFault::Count);
    }
    said(sizes, keyword, line)
}

/// What the arguments say behind a first word.
#[tactic(auto, unfolding(crate::specs::Entry::said))]
fn said(sizes: Sizes, keyword: Keyword, line: &[u8]) -> Result<Entry, LineFault>
    requires { length line.now < 2 ^ 32 }
    ensures reads { result ≡ said sizes keyword line.now }
    ensures fits { IfOk result (IsEntryIn sizes) }
{
    match keyword {
        Keyword::Step => {
            let hart = below(sizes.threads, word(line, 1))?;
            Ok(Entry::One(Event::Step { hart }))
        }
        Keyword::Drain => {
            let hart = below(sizes.threads, word(line, 1))?;
            Ok(Entry::One(Event::Drain { hart }))
        }
        Keyword::Evict => {
            let blade = below(sizes.blades, word(line, 1))?;
            let page = page(line, 2)?;
            Ok(Entry::One(Event::Evict { blade, page }))
        }
        Keyword::Frame(fate) => Ok(Entry::One(frame_event(sizes, fate, line)?)),
        Keyword::Resend => {
            let link = link(sizes, word(line, 1))?;
            Ok(Entry::One(Event::Resend { link }))
        }
        Keyword::Epoch => Ok(Entry::One(Event::Epoch)),
        Keyword::Settle => Ok(Entry::One(Event::Settle)),
        Keyword::Map => {
            let (span, perm) = permission(line)?;
            Ok(asked(Command::Map { span, perm }))
        }
        Keyword::Protect => {
            let (span, perm) = permission(line)?;
            Ok(asked(Command::Protect { span, perm }))
        }
        Keyword::Unmap => Ok(asked(Command::Unmap { span: span(line)? })),
        Keyword::Migrate => {
            let range = range(line)?;
            let memory = below(sizes.memories, word(line, 4))?;
            Ok(asked(Command::Migrate { range, memory }))
        }
        Keyword::Run => Ok(Entry::Rounds(up_to(1_000_000, word(line, 1))?)),
    }
}

/// What befalls the frame of a wire that a line names.
#[tactic(auto, unfolding(crate::specs::Entry::frame_event))]
fn frame_event(sizes: Sizes, fate: Fate, line: &[u8]) -> Result<Event, LineFault>
    requires { length line.now < 2 ^ 32 }
    ensures reads { result ≡ frame_event sizes fate line.now }
    ensures fits { IfOk result (IsEventIn sizes) }
{
    let (link, side) = wire(sizes, word(line, 1))?;
    let k = up_to(u32::MAX, word(line, 2))?;
    Ok(befalls(fate, link, side, k))
}

/// The pages and the permission that a line names.
#[tactic(auto, unfolding(crate::specs::Entry::permission_on))]
fn permission(line: &[u8]) -> Result<(Span, Perm), LineFault>
    requires { length line.now < 2 ^ 32 }
    ensures { result ≡ permission_on line.now }
{
    let span = span(line)?;
    let perm = perm(word(line, 4))?;
    Ok((span, perm))
}

/// A command is one event.
fn asked(command: Command) -> Entry
    ensures { result ≡ one_command command }
{
    Entry::One(Event::Ask { command })
}
