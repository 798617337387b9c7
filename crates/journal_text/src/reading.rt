//! The notes of a journal, or the first fault of its text.

ghost use Rattle.std.specs.Prelude.{◌≡◌, ◌+◌, ◌<◌, ◌^◌, List, length, IfOk, IfErr};
ghost use Rattle.mind_base.specs.declared.notes.Note.{Note};
ghost use Rattle.journal_text.specs.Journal.{note_lines, journal_text_of, AreJournalNotes};
ghost use Rattle.journal_text.specs.Reading.{IsRefusal, IsLineRefusal, ReadsOnly};

use crate::notes::note_front;
use crate::parts::behind;
use crate::{JournalFault, JournalRefusal};
use mind_base::Log;
use std::alloc::Global;

/// The notes whose lines these are.
fn notes_of(alloc: Global, lines: &[u8]) -> Result<Log, JournalRefusal>
    requires { length lines.now + 2 < 2 ^ 32 }
    ensures found { IfOk result (λ log. AreJournalNotes log.notes × (lines.now ≡ note_lines log.notes)) }
    ensures only { (notes : List Note) → AreJournalNotes notes → lines.now ≡ note_lines notes → ReadsOnly notes result }
    ensures refused { IfErr result (λ refusal. IsLineRefusal lines.now refusal) }
{
    let mut log = Log::new(alloc);
    let mut rest = lines;
    let mut line: u32 = 2;
    while !rest.is_empty() {
        match note_front(rest) {
            None => {
                return Err(JournalRefusal::Refused {
                    line,
                    what: JournalFault::Line,
                });
            }
            Some((note, more)) => {
                log.add(note)?;
                rest = more;
                line += 1;
            }
        }
    }
    Ok(log)
}

/// Reads the text of a log: the line `mind journal 1`, and one line for each note, whose numbers are
/// within the bounds of a rack. A refusal names the first line that is none, counted from 1.
pub fn journal_of(alloc: Global, bytes: &[u8]) -> Result<Log, JournalRefusal>
    requires { length bytes.now < 2 ^ 32 }
    // What is read are notes within bounds, and the text is theirs.
    ensures found { IfOk result (λ log. AreJournalNotes log.notes × (bytes.now ≡ journal_text_of log.notes)) }
    // The text of notes within bounds is read as the same notes, unless memory runs out.
    ensures only { (notes : List Note) → AreJournalNotes notes → bytes.now ≡ journal_text_of notes → ReadsOnly notes result }
    // A refusal names the first fault.
    ensures refused { IfErr result (λ refusal. IsRefusal bytes.now refusal) }
{
    match behind(bytes, b"mind journal 1\n") {
        None => Err(JournalRefusal::Refused {
            line: 1,
            what: JournalFault::Head,
        }),
        Some(lines) => notes_of(alloc, lines),
    }
}
