//! The labels of the machine, and where a replay of them ends.

ghost use Rattle.std.specs.Prelude.{◌≡◌};
ghost use Rattle.tso_machine.specs.Replay.{label_of};

use mind_base::Note;

/// What takes effect in one step of the machine: a thread executes an instruction, its oldest store
/// drains to memory, or a command is taken.
#[derive(Clone, Copy, Debug, PartialEq, Eq)]
pub enum Label {
    Exec { hart: u8 },
    Drain { hart: u8 },
    Command { index: u32 },
}

/// How far the labels of a log could be replayed: all of them, or up to the first that was not
/// enabled, by its number from 0.
#[derive(Clone, Copy, Debug, PartialEq, Eq)]
pub enum Replay {
    Whole,
    Stuck { label: usize },
}

/// The label that a note is, if it is one.
pub fn label_in(note: Note) -> Option<Label>
    ensures { result ≡ label_of note }
{
    match note {
        Note::Exec { hart } => Some(Label::Exec { hart }),
        Note::Drain { hart } => Some(Label::Drain { hart }),
        Note::Command { index } => Some(Label::Command { index }),
        _ => None,
    }
}
