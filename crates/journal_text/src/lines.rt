//! The line of a note, written.

ghost use Rattle.std.specs.Prelude.{◌≡◌, ◌++◌, codes, OnOk};
ghost use Rattle.mind_base.specs.OutcomeWord.{outcome_word};
ghost use Rattle.std.specs.Fmt.{decimal};
ghost use Rattle.journal_text.specs.Journal.{page_text, range_text, access_word, state_text, note_line};

use mind_base::{NoMemory, Note, Outcome, Page, Range, State};
use plain_text::put_decimal;
use std::alloc::Global;

fn put_page(alloc: Global, out: &mut Vec<u8>, page: &Page) -> Result<(), NoMemory>
    ensures { OnOk result (out.new.items ≡ out.old.items ++ page_text page.now) }
{
    put_decimal(alloc, out, u64::from(page.domain))?;
    out.extend_from_slice(b" ")?;
    put_decimal(alloc, out, u64::from(page.number))
}

fn put_range(alloc: Global, out: &mut Vec<u8>, range: &Range) -> Result<(), NoMemory>
    ensures { OnOk result (out.new.items ≡ out.old.items ++ range_text range.now) }
{
    put_decimal(alloc, out, u64::from(range.domain))?;
    out.extend_from_slice(b" ")?;
    put_decimal(alloc, out, u64::from(range.base))?;
    out.extend_from_slice(b" ")?;
    put_decimal(alloc, out, u64::from(range.log))
}

fn access_for(writable: bool) -> &'static [u8]
    ensures { result.now ≡ access_word writable }
{
    if writable { b"w" } else { b"r" }
}

fn put_state(alloc: Global, out: &mut Vec<u8>, state: State) -> Result<(), NoMemory>
    ensures { OnOk result (out.new.items ≡ out.old.items ++ state_text state) }
{
    match state {
        State::I => {
            out.extend_from_slice(b"i")?;
            Ok(())
        }
        State::S { sharers } => {
            out.extend_from_slice(b"s ")?;
            put_decimal(alloc, out, u64::from(sharers))
        }
        State::M { owner } => {
            out.extend_from_slice(b"m ")?;
            put_decimal(alloc, out, u64::from(owner))
        }
    }
}

/// A letter with its space, and a number.
fn put_counted(alloc: Global, out: &mut Vec<u8>, letter: &[u8], n: u32) -> Result<(), NoMemory>
    ensures { OnOk result (out.new.items ≡ out.old.items ++ (letter.now ++ decimal n)) }
{
    out.extend_from_slice(letter)?;
    put_decimal(alloc, out, u64::from(n))
}

/// A letter with its space, and a block.
fn put_block(alloc: Global, out: &mut Vec<u8>, letter: &[u8], range: &Range) -> Result<(), NoMemory>
    ensures { OnOk result (out.new.items ≡ out.old.items ++ (letter.now ++ range_text range.now)) }
{
    out.extend_from_slice(letter)?;
    put_range(alloc, out, range)
}

/// A letter with its space, a blade, and a page.
fn put_held(
    alloc: Global,
    out: &mut Vec<u8>,
    letter: &[u8],
    blade: u8,
    page: &Page,
) -> Result<(), NoMemory>
    ensures { OnOk result (out.new.items ≡ out.old.items ++ (letter.now ++ decimal blade ++ codes " " ++ page_text page.now)) }
{
    put_counted(alloc, out, letter, u32::from(blade))?;
    out.extend_from_slice(b" ")?;
    put_page(alloc, out, page)
}

fn put_moved(alloc: Global, out: &mut Vec<u8>, index: u32, outcome: Outcome) -> Result<(), NoMemory>
    ensures { OnOk result (out.new.items ≡ out.old.items ++ (codes "m " ++ decimal index ++ codes " " ++ outcome_word outcome)) }
{
    put_counted(alloc, out, b"m ", index)?;
    out.extend_from_slice(b" ")?;
    out.extend_from_slice(outcome.word())?;
    Ok(())
}

fn put_take(
    alloc: Global,
    out: &mut Vec<u8>,
    blade: u8,
    page: &Page,
    writable: bool,
) -> Result<(), NoMemory>
    ensures { OnOk result (out.new.items ≡ out.old.items ++ (codes "t " ++ decimal blade ++ codes " " ++ page_text page.now ++ codes " " ++ access_word writable)) }
{
    put_held(alloc, out, b"t ", blade, page)?;
    out.extend_from_slice(b" ")?;
    out.extend_from_slice(access_for(writable))?;
    Ok(())
}

fn put_region(alloc: Global, out: &mut Vec<u8>, range: &Range, state: State) -> Result<(), NoMemory>
    ensures { OnOk result (out.new.items ≡ out.old.items ++ (codes "r " ++ range_text range.now ++ codes " " ++ state_text state)) }
{
    put_block(alloc, out, b"r ", range)?;
    out.extend_from_slice(b" ")?;
    put_state(alloc, out, state)
}

/// The line of a note without its end.
fn put_note(alloc: Global, out: &mut Vec<u8>, note: &Note) -> Result<(), NoMemory>
    ensures { OnOk result (out.new.items ++ codes "\n" ≡ out.old.items ++ note_line note.now) }
{
    match note {
        Note::Event { index } => put_counted(alloc, out, b"e ", *index),
        Note::Exec { hart } => put_counted(alloc, out, b"x ", u32::from(*hart)),
        Note::Drain { hart } => put_counted(alloc, out, b"d ", u32::from(*hart)),
        Note::Command { index } => put_counted(alloc, out, b"c ", *index),
        Note::Moved { index, outcome } => put_moved(alloc, out, *index, *outcome),
        Note::Take {
            blade,
            page,
            writable,
        } => put_take(alloc, out, *blade, page, *writable),
        Note::Give { blade, page } => put_held(alloc, out, b"g ", *blade, page),
        Note::Down { blade, page } => put_held(alloc, out, b"l ", *blade, page),
        Note::Region { range, state } => put_region(alloc, out, range, *state),
        Note::Gone { range } => put_block(alloc, out, b"o ", range),
        Note::Split { range } => put_block(alloc, out, b"s ", range),
        Note::Merge { range } => put_block(alloc, out, b"j ", range),
    }
}

/// The line of a note.
pub fn put_line(alloc: Global, out: &mut Vec<u8>, note: &Note) -> Result<(), NoMemory>
    ensures { OnOk result (out.new.items ≡ out.old.items ++ note_line note.now) }
{
    put_note(alloc, out, note)?;
    out.extend_from_slice(b"\n")?;
    Ok(())
}
