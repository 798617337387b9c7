//! The first outcome of each move.

ghost use Rattle.std.specs.Prelude.{◌≡◌, ℕ, ◌<◌, length, get_or, IfOk, None};
ghost use Rattle.std.specs.Option.{option_or};
ghost use Rattle.report_text.specs.CommandLine.{moved_in, moved_at};

use mind_base::{Log, NoMemory, Note, Outcome};
use std::alloc::Global;

/// Takes one note over: the outcome of a move, unless one of its number came before.
fn note_move(moves: &mut Vec<Option<Outcome>>, note: Note)
    ensures length { length moves.new.items ≡ length moves.old.items }
    ensures first { (index : ℕ) → index < length moves.old.items → get_or moves.new.items index None ≡ option_or (get_or moves.old.items index None) (moved_in note index) }
{
    match note {
        Note::Moved { index, outcome } => keep_first(moves, index as usize, outcome),
        _ => {}
    }
}

/// Keeps the outcome of move `number`, unless there is one, or no such command.
fn keep_first(moves: &mut Vec<Option<Outcome>>, number: usize, outcome: Outcome)
    ensures length { length moves.new.items ≡ length moves.old.items }
    ensures first { (index : ℕ) → index < length moves.old.items → get_or moves.new.items index None ≡ option_or (get_or moves.old.items index None) (moved_in (Note.Moved number outcome) index) }
{
    if number < moves.len() {
        let kept = moves[number];
        moves[number] = kept.or(Some(outcome));
    }
}

/// The outcome of the first move of each of the first `count` commands, by its number.
pub fn first_moves(alloc: Global, log: &Log, count: usize) -> Result<Vec<Option<Outcome>>, NoMemory>
    ensures length { IfOk result (λ moves. length moves.items ≡ count) }
    ensures first { IfOk result (λ moves. (index : ℕ) → index < count → get_or moves.items index None ≡ moved_at log.now.notes index) }
{
    let mut moves = vec![in alloc; None; count]?;
    for i in 0..log.len() {
        note_move(&mut moves, log.get(i));
    }
    Ok(moves)
}
