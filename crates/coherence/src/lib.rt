//! Why the caches of the rack agree: what is true of blades, switch, memory blades and the messages under
//! way between them at every moment, and that each thing that one of them does keeps it true.
#![tactic(auto)]

mod laws;
mod laws_of_notes;

pub use laws::{every_move_keeps_coherence, one_writer, regions_change_size};
pub use laws_of_notes::{each_note_tells, lawful_at_every_point, notes_tell_what_is_there};
