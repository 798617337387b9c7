//! Why a text is no journal.

ghost use Rattle.std.specs.Prelude.{◌≡◌};
ghost use Rattle.journal_text.specs.declared.refusals.JournalRefusal.TheVariants.{NoMemory as no_memory};

use std::error::Error;
use std::fmt;

/// Why a text is no journal: its first line is another (or has no end), or a later line is no note's
/// (or has no end).
#[derive(Clone, Copy, Debug, PartialEq, Eq)]
pub enum JournalFault {
    Head,
    Line,
}

/// Why a journal was not read. Lines count from 1; with `Head` the line is 1.
#[derive(Clone, Copy, Debug, PartialEq, Eq)]
pub enum JournalRefusal {
    Refused { line: u32, what: JournalFault },
    NoMemory,
}

impl fmt::Display for JournalRefusal {
    fn fmt<W: fmt::Write>(&self, f: &mut fmt::Formatter<W>) -> fmt::Result {
        match self {
            JournalRefusal::Refused {
                what: JournalFault::Head,
                ..
            } => f.write_str("head"),
            JournalRefusal::Refused {
                line,
                what: JournalFault::Line,
            } => write!(f, "line {line}"),
            JournalRefusal::NoMemory => f.write_str("out of memory"),
        }
    }
}

impl Error for JournalRefusal {}

impl From<mind_base::NoMemory> for JournalRefusal {
    ghost from_gives = { λ _ e. e ≡ no_memory };

    fn from(_: mind_base::NoMemory) -> Self {
        JournalRefusal::NoMemory
    }
}
