//! The pieces of a run of pages that lie together.

ghost use Rattle.std.specs.Prelude.{◌≡◌, ◌+◌, ◌<◌, ◌↔◌, [], ◌∷◌, ◌++◌, IsTrue, OnOk};
ghost use Rattle.std.specs.List.{flat_map};
ghost use Rattle.range_translate.specs.Piece.{places_in, AreLongest};

use crate::Piece;
use mind_base::NoMemory;

/// Whether the place is the one behind the piece's last one.
fn goes_on(piece: &Piece, memory: u8, number: u32) -> bool
    ensures { IsTrue result ↔ ((piece.now.memory ≡ memory) × (piece.now.first + piece.now.pages ≡ number)) }
{
    piece.memory == memory && piece.first <= number && number - piece.first == piece.pages
}

/// Adds a place behind those of the pieces: to the last piece where it goes on there, else as a new one.
pub fn add_place(pieces: &mut Vec<Piece>, memory: u8, number: u32) -> Result<(), NoMemory>
    requires below { number < 4294967295 }
    requires longest { AreLongest pieces.old.items }
    ensures places { OnOk result (flat_map places_in pieces.new.items ≡ flat_map places_in pieces.old.items ++ (memory, number) ∷ []) }
    ensures longest { OnOk result (AreLongest pieces.new.items) }
{
    let count = pieces.len();
    if count > 0 && goes_on(&pieces[count - 1], memory, number) {
        pieces[count - 1].pages += 1;
        return Ok(());
    }
    pieces.push(Piece {
        memory,
        first: number,
        pages: 1,
    })?;
    Ok(())
}
