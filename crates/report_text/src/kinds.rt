//! The kinds of notes that are counted.

ghost use Rattle.std.specs.Prelude.{◌≡◌};
ghost use Rattle.report_text.specs.Counts.{note_kind, is_kind, is_note_of};

use mind_base::Note;

/// The kinds of notes that a report counts. A label is what takes effect in the machine: an executed
/// instruction, a drained store or a taken command.
#[derive(Clone, Copy, Debug, PartialEq, Eq)]
pub enum Kind {
    Event,
    Label,
    Take,
    Give,
    Down,
    Split,
    Merge,
}

/// The kind under which a note counts, if it counts.
fn kind_in(note: Note) -> Option<Kind>
    ensures { result ≡ note_kind note }
{
    match note {
        Note::Event { .. } => Some(Kind::Event),
        Note::Exec { .. } => Some(Kind::Label),
        Note::Drain { .. } => Some(Kind::Label),
        Note::Command { .. } => Some(Kind::Label),
        Note::Take { .. } => Some(Kind::Take),
        Note::Give { .. } => Some(Kind::Give),
        Note::Down { .. } => Some(Kind::Down),
        Note::Split { .. } => Some(Kind::Split),
        Note::Merge { .. } => Some(Kind::Merge),
        Note::Moved { .. } | Note::Region { .. } | Note::Gone { .. } => None,
    }
}

/// Whether a note counts under this kind.
pub fn counts_as(kind: Kind, note: Note) -> bool
    ensures { result ≡ is_note_of kind note }
{
    match kind_in(note) {
        None => false,
        Some(found) => found == kind,
    }
}
