//! The law of spellings: a function that does nothing, with the law as clauses.

ghost use Rattle.std.specs.Prelude.{◌≡◌, ◌++◌, List, ℕ};
ghost use Rattle.wire_msg.specs.declared.msgs.Msg.{Msg as message};
ghost use Rattle.wire_msg.specs.Spelling.{spelling};
ghost use Rattle.wire_msg.specs.WellFormed.{IsWellFormed};

/// No spelling begins another: where the bytes of one message, with whatever follows, are those of
/// another with whatever follows, the two are one message. So no two messages share a spelling.
pub fn no_spelling_begins_another()
    ensures begins { (a b : message) (x y : List ℕ) → IsWellFormed a → IsWellFormed b
        → spelling a ++ x ≡ spelling b ++ y → (a ≡ b) × (x ≡ y) }
    ensures shares { (a b : message) → IsWellFormed a → IsWellFormed b → spelling a ≡ spelling b → a ≡ b }
{}
