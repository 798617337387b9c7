//! The words of a journal's lines: outcomes, accesses and states, read.

ghost use Rattle.std.specs.Prelude.{◌≡◌, ℕ, ◌<◌, ◌++◌, ◌∷◌, List, Bool, IfSome, MatchOption};
ghost use Rattle.mind_base.specs.declared.commands.Outcome.{Outcome};
ghost use Rattle.mind_base.specs.declared.notes.State.{State};
ghost use Rattle.mind_base.specs.OutcomeWord.{outcome_word};
ghost use Rattle.std.specs.Fmt.{decimal};
ghost use Rattle.journal_text.specs.Journal.{state_text, access_word, IsJournalState};

use crate::fields::{BLADES, number_before};
use mind_base::{Outcome, State};

/// What follows a word that the text begins with.
pub fn behind<'a>(text: &'a [u8], word: &[u8]) -> Option<&'a [u8]>
    ensures { MatchOption result ((rest : List ℕ) → text.now ≡ word.now ++ rest → ⊥) (λ rest. text.now ≡ word.now ++ rest.now) }
{
    text.strip_prefix(word)
}

/// What follows the word of this outcome and the end of its line.
fn outcome_front(text: &[u8], outcome: Outcome) -> Option<&[u8]>
    ensures { MatchOption result ((rest : List ℕ) → text.now ≡ outcome_word outcome ++ 10 ∷ rest → ⊥) (λ rest. text.now ≡ outcome_word outcome ++ 10 ∷ rest.now) }
{
    match behind(text, outcome.word()) {
        None => None,
        Some(line_end) => behind(line_end, b"\n"),
    }
}

/// The word of an outcome and the end of its line, and what follows.
pub fn outcome_line(text: &[u8]) -> Option<(Outcome, &[u8])>
    ensures found { IfSome result (λ read. text.now ≡ outcome_word read.0 ++ 10 ∷ read.1.now) }
    ensures only { (outcome : Outcome) (rest : List ℕ) → text.now ≡ outcome_word outcome ++ 10 ∷ rest → MatchOption result ⊥ (λ read. (read.0 ≡ outcome) × (read.1.now ≡ rest)) }
{
    if let Some(rest) = outcome_front(text, Outcome::Fine) {
        return Some((Outcome::Fine, rest));
    }
    if let Some(rest) = outcome_front(text, Outcome::Unplaced) {
        return Some((Outcome::Unplaced, rest));
    }
    if let Some(rest) = outcome_front(text, Outcome::Overlap) {
        return Some((Outcome::Overlap, rest));
    }
    if let Some(rest) = outcome_front(text, Outcome::Unmapped) {
        return Some((Outcome::Unmapped, rest));
    }
    if let Some(rest) = outcome_front(text, Outcome::Slots) {
        return Some((Outcome::Slots, rest));
    }
    if let Some(rest) = outcome_front(text, Outcome::Same) {
        return Some((Outcome::Same, rest));
    }
    if let Some(rest) = outcome_front(text, Outcome::Room) {
        return Some((Outcome::Room, rest));
    }
    None
}

/// Whether a page was taken to be written, the end of the line, and what follows.
pub fn access_line(text: &[u8]) -> Option<(bool, &[u8])>
    ensures found { IfSome result (λ read. text.now ≡ access_word read.0 ++ 10 ∷ read.1.now) }
    ensures only { (writable : Bool) (rest : List ℕ) → text.now ≡ access_word writable ++ 10 ∷ rest → MatchOption result ⊥ (λ read. (read.0 ≡ writable) × (read.1.now ≡ rest)) }
{
    if let Some(rest) = behind(text, b"w\n") {
        return Some((true, rest));
    }
    if let Some(rest) = behind(text, b"r\n") {
        return Some((false, rest));
    }
    None
}

/// The sharers of a block up to the end of the line, and what follows.
fn sharers_line(text: &[u8]) -> Option<(u8, &[u8])>
    ensures found { IfSome result (λ read. (0 < read.0) × (read.0 < 256) × (text.now ≡ decimal read.0 ++ 10 ∷ read.1.now)) }
    ensures only { (n : ℕ) (rest : List ℕ) → 0 < n → n < 256 → text.now ≡ decimal n ++ 10 ∷ rest → MatchOption result ⊥ (λ read. (read.0 ≡ n) × (read.1.now ≡ rest)) }
{
    let (sharers, rest) = number_before(text, b'\n', 256)?;
    if sharers == 0 {
        return None;
    }
    Some((sharers as u8, rest))
}

/// A state up to the end of its line, and what follows.
pub fn state_line(text: &[u8]) -> Option<(State, &[u8])>
    ensures found { IfSome result (λ read. IsJournalState read.0 × (text.now ≡ state_text read.0 ++ 10 ∷ read.1.now)) }
    ensures only { (state : State) (rest : List ℕ) → IsJournalState state → text.now ≡ state_text state ++ 10 ∷ rest → MatchOption result ⊥ (λ read. (read.0 ≡ state) × (read.1.now ≡ rest)) }
{
    if let Some(rest) = behind(text, b"i\n") {
        return Some((State::I, rest));
    }
    if let Some(front) = behind(text, b"s ") {
        let (sharers, rest) = sharers_line(front)?;
        return Some((State::S { sharers }, rest));
    }
    if let Some(front) = behind(text, b"m ") {
        let (owner, rest) = number_before(front, b'\n', BLADES)?;
        return Some((State::M { owner: owner as u8 }, rest));
    }
    None
}
