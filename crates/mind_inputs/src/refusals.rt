//! Why an input is refused, and the line that says it.

ghost use Rattle.std.specs.Prelude.{◌≡◌, ◌++◌, ◌∷◌, [], IfOk, OnOk};
ghost use Rattle.mind_inputs.specs.Refusal.{rack_word, schedule_word, path_text, rack_text, numbered_text, image_text, schedule_text, journal_text, text_word, line_text, instructions_text, line_of};

use journal_text::JournalFault;
use mind_base::NoMemory;
use plain_text::put_decimal;
use rack_file::{Path, RackFault};
use rv32_text::TextFault;
use schedule_text::LineFault;
use std::alloc::Global;

/// Why an input is refused. Images are numbered from 0, lines from 1; line 0 is a whole text. `Long` stands for
/// more bytes than are read, `Early` for what is accepted and cannot be run yet.
#[derive(Debug, Drop)]
pub enum Refusal {
    RackRefused { what: RackFault, path: Path },
    RackLong,
    ImageLength { number: u8 },
    ImageEnd { number: u8 },
    ImageLong { number: u8 },
    ScheduleRefused { line: u32, what: LineFault },
    ScheduleLong,
    ScheduleEarly,
    JournalRefused { line: u32, what: JournalFault },
    JournalLong,
    TextRefused { line: u32, what: TextFault },
    TextLong,
}

fn word_of_rack(what: RackFault) -> &'static [u8]
    ensures { result.now ≡ rack_word what }
{
    match what {
        RackFault::Toml => b"toml",
        RackFault::Missing => b"missing",
        RackFault::Kind => b"kind",
        RackFault::Limit => b"limit",
        RackFault::Unknown => b"unknown",
        RackFault::Overlap => b"overlap",
        RackFault::Unplaced => b"unplaced",
        RackFault::Slots => b"slots",
    }
}

fn word_of_line(what: LineFault) -> &'static [u8]
    ensures { result.now ≡ schedule_word what }
{
    match what {
        LineFault::Text => b"text",
        LineFault::Word => b"word",
        LineFault::Count => b"count",
        LineFault::Number => b"number",
        LineFault::Range => b"range",
        LineFault::Wire => b"wire",
        LineFault::Perm => b"perm",
        LineFault::Events => b"events",
    }
}

fn word_of_text(what: TextFault) -> &'static [u8]
    ensures { result.now ≡ text_word what }
{
    match what {
        TextFault::Text => b"text",
        TextFault::Label => b"label",
        TextFault::Word => b"word",
        TextFault::Operand => b"operand",
        TextFault::Target => b"target",
        TextFault::Range => b"range",
        TextFault::Words => b"words",
        TextFault::Empty => b"empty",
    }
}

fn put_path(out: &mut Vec<u8>, path: &[u8]) -> Result<(), NoMemory>
    ensures { OnOk result (out.new.items ≡ out.old.items ++ path_text path.now) }
{
    if path.is_empty() {
        return Ok(());
    }
    out.extend_from_slice(b" ")?;
    out.extend_from_slice(path)?;
    Ok(())
}

fn rack_line(alloc: Global, what: RackFault, path: &[u8]) -> Result<Vec<u8>, NoMemory>
    ensures { IfOk result (λ text. text.items ≡ rack_text what path.now ++ 10 ∷ []) }
{
    let mut out = Vec::new(alloc);
    out.extend_from_slice(b"refused rack ")?;
    out.extend_from_slice(word_of_rack(what))?;
    put_path(&mut out, path)?;
    out.extend_from_slice(b"\n")?;
    Ok(out)
}

fn numbered_line(alloc: Global, head: &[u8], word: &[u8], number: u32) -> Result<Vec<u8>, NoMemory>
    ensures { IfOk result (λ text. text.items ≡ numbered_text head.now word.now number ++ 10 ∷ []) }
{
    let mut out = Vec::new(alloc);
    out.extend_from_slice(head)?;
    out.extend_from_slice(word)?;
    out.extend_from_slice(b" ")?;
    put_decimal(alloc, &mut out, u64::from(number))?;
    out.extend_from_slice(b"\n")?;
    Ok(out)
}

fn image_line(alloc: Global, word: &[u8], number: u8) -> Result<Vec<u8>, NoMemory>
    ensures { IfOk result (λ text. text.items ≡ image_text word.now number ++ 10 ∷ []) }
{
    numbered_line(alloc, b"refused image ", word, u32::from(number))
}

fn schedule_line(alloc: Global, line: u32, what: LineFault) -> Result<Vec<u8>, NoMemory>
    ensures { IfOk result (λ text. text.items ≡ schedule_text line what ++ 10 ∷ []) }
{
    numbered_line(alloc, b"refused schedule ", word_of_line(what), line)
}

fn journal_line(alloc: Global, line: u32, what: JournalFault) -> Result<Vec<u8>, NoMemory>
    ensures { IfOk result (λ text. text.items ≡ journal_text line what ++ 10 ∷ []) }
{
    let mut out = Vec::new(alloc);
    match what {
        JournalFault::Head => out.extend_from_slice(b"refused journal head")?,
        JournalFault::Line => {
            out.extend_from_slice(b"refused journal line ")?;
            put_decimal(alloc, &mut out, u64::from(line))?;
        }
    }
    out.extend_from_slice(b"\n")?;
    Ok(out)
}

fn put_line_number(alloc: Global, out: &mut Vec<u8>, line: u32) -> Result<(), NoMemory>
    ensures { OnOk result (out.new.items ≡ out.old.items ++ line_text line) }
{
    if line == 0 {
        return Ok(());
    }
    out.extend_from_slice(b" ")?;
    put_decimal(alloc, out, u64::from(line))
}

fn instructions_line(alloc: Global, line: u32, what: TextFault) -> Result<Vec<u8>, NoMemory>
    ensures { IfOk result (λ text. text.items ≡ instructions_text line what ++ 10 ∷ []) }
{
    let mut out = Vec::new(alloc);
    out.extend_from_slice(b"refused text ")?;
    out.extend_from_slice(word_of_text(what))?;
    put_line_number(alloc, &mut out, line)?;
    out.extend_from_slice(b"\n")?;
    Ok(out)
}

impl Refusal {
    /// The line that is written of it, with its line end.
    pub fn line(&self, alloc: Global) -> Result<Vec<u8>, NoMemory>
        ensures { IfOk result (λ text. text.items ≡ line_of self.now) }
    {
        match self {
            Refusal::RackRefused { what, path } => rack_line(alloc, *what, path.as_bytes()),
            Refusal::RackLong => Ok(Vec::from_slice(alloc, b"refused rack long\n")?),
            Refusal::ImageLength { number } => image_line(alloc, b"length", *number),
            Refusal::ImageEnd { number } => image_line(alloc, b"end", *number),
            Refusal::ImageLong { number } => image_line(alloc, b"long", *number),
            Refusal::ScheduleRefused { line, what } => schedule_line(alloc, *line, *what),
            Refusal::ScheduleLong => Ok(Vec::from_slice(alloc, b"refused schedule long\n")?),
            Refusal::ScheduleEarly => Ok(Vec::from_slice(alloc, b"refused schedule early\n")?),
            Refusal::JournalRefused { line, what } => journal_line(alloc, *line, *what),
            Refusal::JournalLong => Ok(Vec::from_slice(alloc, b"refused journal long\n")?),
            Refusal::TextRefused { line, what } => instructions_line(alloc, *line, *what),
            Refusal::TextLong => Ok(Vec::from_slice(alloc, b"refused text long\n")?),
        }
    }
}
