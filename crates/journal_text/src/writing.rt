//! The journal of a log.

ghost use Rattle.std.specs.Prelude.{◌≡◌, IfOk};
ghost use Rattle.journal_text.specs.Journal.{journal_text_of};

use crate::lines::put_line;
use mind_base::{Log, NoMemory};
use std::alloc::Global;

/// The text of a log: the line `mind journal 1`, and one line for each note.
pub fn journal(alloc: Global, log: &Log) -> Result<Vec<u8>, NoMemory>
    ensures { IfOk result (λ text. text.items ≡ journal_text_of log.now.notes) }
{
    let mut out = Vec::new(alloc);
    out.extend_from_slice(b"mind journal 1")?;
    out.extend_from_slice(b"\n")?;
    for i in 0..log.len() {
        let note = log.get(i);
        put_line(alloc, &mut out, &note)?;
    }
    Ok(out)
}
