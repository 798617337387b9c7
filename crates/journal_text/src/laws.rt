//! The law of journals: a function that does nothing, with the law as clauses.

ghost use Rattle.std.specs.Prelude.{◌≡◌, ◌++◌, ℕ, List, Result};
ghost use Rattle.mind_base.specs.declared.notes.Note.{Note};
ghost use Rattle.journal_text.specs.declared.refusals.JournalFault.{JournalFault};
ghost use Rattle.journal_text.specs.Journal.{note_line, IsJournalNote};
ghost use Rattle.journal_text.specs.Reading.{IsJudged};

/// A text has one judgement: the notes whose text it is, or its first fault and the line of that. No line
/// of a note begins another, whatever follows them.
pub fn one_judgement()
    ensures judged { (bytes : List ℕ) (a b : Result (List Note) (ℕ × JournalFault)) → IsJudged bytes a → IsJudged bytes b → a ≡ b }
    ensures lines { (a b : Note) (x y : List ℕ) → IsJournalNote a → IsJournalNote b
        → note_line a ++ x ≡ note_line b ++ y → (a ≡ b) × (x ≡ y) }
{}
