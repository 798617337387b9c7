//! The note of a line, read.

ghost use Rattle.std.specs.Prelude.{◌≡◌, ℕ, ◌<◌, ◌++◌, ◌∷◌, List, Bool, false, IfSome, MatchOption};
ghost use Rattle.std.specs.Char.{is_digit};
ghost use Rattle.mind_base.specs.Page.{PageView};
ghost use Rattle.mind_base.specs.Range.{RangeView};
ghost use Rattle.mind_base.specs.declared.commands.Outcome.{Outcome};
ghost use Rattle.mind_base.specs.declared.notes.State.{State};
ghost use Rattle.mind_base.specs.declared.notes.Note.{Note};
ghost use Rattle.mind_base.specs.declared.notes.Note.TheVariants.{Event, Exec, Drain, Command, Moved, Take, Give, Down, Region, Gone, Split, Merge};
ghost use Rattle.mind_base.specs.OutcomeWord.{outcome_word};
ghost use Rattle.std.specs.Fmt.{decimal};
ghost use Rattle.journal_text.specs.Journal.{page_text, range_text, access_word, state_text, note_line, IsNotedPage, IsBlock, IsJournalState, IsJournalNote};

use crate::fields::{BLADES, EVENTS, THREADS, number_before, page_before, range_before};
use crate::parts::{access_line, outcome_line, state_line};
use mind_base::{Note, Page};

/// A blade and a page up to the byte that ends them, and what follows that byte.
fn held_before(text: &[u8], end: u8) -> Option<(u8, Page, &[u8])>
    requires { is_digit end 10 ≡ false }
    ensures found { IfSome result (λ read. (read.0 < 8) × IsNotedPage read.1 × (text.now ≡ decimal read.0 ++ 32 ∷ (page_text read.1 ++ end ∷ read.2.now))) }
    ensures only { (blade : ℕ) (page : PageView) (rest : List ℕ) → blade < 8 → IsNotedPage page → text.now ≡ decimal blade ++ 32 ∷ (page_text page ++ end ∷ rest) → MatchOption result ⊥ (λ read. (read.0 ≡ blade) × (read.1 ≡ page) × (read.2.now ≡ rest)) }
{
    let (blade, rest) = number_before(text, b' ', BLADES)?;
    match page_before(rest, end) {
        None => None,
        Some((page, rest)) => Some((blade as u8, page, rest)),
    }
}

/// `INDEX OUTCOME` up to the end of the line, as a note.
fn moved_note(text: &[u8]) -> Option<(Note, &[u8])>
    ensures found { IfSome result (λ read. IsJournalNote read.0 × (109 ∷ 32 ∷ text.now ≡ note_line read.0 ++ read.1.now)) }
    ensures only { (index : ℕ) (outcome : Outcome) (rest : List ℕ) → index < 1000000 → text.now ≡ decimal index ++ 32 ∷ (outcome_word outcome ++ 10 ∷ rest) → MatchOption result ⊥ (λ read. (read.0 ≡ Moved index outcome) × (read.1.now ≡ rest)) }
{
    let (index, rest) = number_before(text, b' ', EVENTS)?;
    match outcome_line(rest) {
        None => None,
        Some((outcome, rest)) => Some((Note::Moved { index, outcome }, rest)),
    }
}

/// `BLADE DOMAIN PAGE ACCESS` up to the end of the line, as a note.
fn take_note(text: &[u8]) -> Option<(Note, &[u8])>
    ensures found { IfSome result (λ read. IsJournalNote read.0 × (116 ∷ 32 ∷ text.now ≡ note_line read.0 ++ read.1.now)) }
    ensures only { (blade : ℕ) (page : PageView) (writable : Bool) (rest : List ℕ) → blade < 8 → IsNotedPage page → text.now ≡ decimal blade ++ 32 ∷ (page_text page ++ 32 ∷ (access_word writable ++ 10 ∷ rest)) → MatchOption result ⊥ (λ read. (read.0 ≡ Take blade page writable) × (read.1.now ≡ rest)) }
{
    match held_before(text, b' ') {
        None => None,
        Some((blade, page, rest)) => match access_line(rest) {
            None => None,
            Some((writable, rest)) => Some((
                Note::Take {
                    blade,
                    page,
                    writable,
                },
                rest,
            )),
        },
    }
}

/// `DOMAIN BASE LOG STATE` up to the end of the line, as a note.
fn region_note(text: &[u8]) -> Option<(Note, &[u8])>
    ensures found { IfSome result (λ read. IsJournalNote read.0 × (114 ∷ 32 ∷ text.now ≡ note_line read.0 ++ read.1.now)) }
    ensures only { (range : RangeView) (state : State) (rest : List ℕ) → IsBlock range → IsJournalState state → text.now ≡ range_text range ++ 32 ∷ (state_text state ++ 10 ∷ rest) → MatchOption result ⊥ (λ read. (read.0 ≡ Region range state) × (read.1.now ≡ rest)) }
{
    match range_before(text, b' ') {
        None => None,
        Some((range, rest)) => match state_line(rest) {
            None => None,
            Some((state, rest)) => Some((Note::Region { range, state }, rest)),
        },
    }
}

/// A note behind its letter and the space, up to the end of its line, and what follows.
fn note_behind(letter: u8, text: &[u8]) -> Option<(Note, &[u8])>
    ensures found { IfSome result (λ read. IsJournalNote read.0 × (letter ∷ 32 ∷ text.now ≡ note_line read.0 ++ read.1.now)) }
    ensures only { (note : Note) (rest : List ℕ) → IsJournalNote note → letter ∷ 32 ∷ text.now ≡ note_line note ++ rest → MatchOption result ⊥ (λ read. (read.0 ≡ note) × (read.1.now ≡ rest)) }
{
    match letter {
        b'e' => match number_before(text, b'\n', EVENTS) {
            None => None,
            Some((index, rest)) => Some((Note::Event { index }, rest)),
        },
        b'x' => match number_before(text, b'\n', THREADS) {
            None => None,
            Some((hart, rest)) => Some((Note::Exec { hart: hart as u8 }, rest)),
        },
        b'd' => match number_before(text, b'\n', THREADS) {
            None => None,
            Some((hart, rest)) => Some((Note::Drain { hart: hart as u8 }, rest)),
        },
        b'c' => match number_before(text, b'\n', EVENTS) {
            None => None,
            Some((index, rest)) => Some((Note::Command { index }, rest)),
        },
        b'm' => moved_note(text),
        b't' => take_note(text),
        b'g' => match held_before(text, b'\n') {
            None => None,
            Some((blade, page, rest)) => Some((Note::Give { blade, page }, rest)),
        },
        b'l' => match held_before(text, b'\n') {
            None => None,
            Some((blade, page, rest)) => Some((Note::Down { blade, page }, rest)),
        },
        b'r' => region_note(text),
        b'o' => match range_before(text, b'\n') {
            None => None,
            Some((range, rest)) => Some((Note::Gone { range }, rest)),
        },
        b's' => match range_before(text, b'\n') {
            None => None,
            Some((range, rest)) => Some((Note::Split { range }, rest)),
        },
        b'j' => match range_before(text, b'\n') {
            None => None,
            Some((range, rest)) => Some((Note::Merge { range }, rest)),
        },
        _ => None,
    }
}

/// The note whose line the text begins with, and what follows that line.
pub fn note_front(text: &[u8]) -> Option<(Note, &[u8])>
    ensures found { IfSome result (λ read. IsJournalNote read.0 × (text.now ≡ note_line read.0 ++ read.1.now)) }
    ensures only { (note : Note) (rest : List ℕ) → IsJournalNote note → text.now ≡ note_line note ++ rest → MatchOption result ⊥ (λ read. (read.0 ≡ note) × (read.1.now ≡ rest)) }
{
    match text {
        [letter, b' ', front @ ..] => note_behind(*letter, front),
        _ => None,
    }
}
