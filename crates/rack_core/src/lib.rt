//! The rack: compute blades, the switch, memory blades and the links between them, event by event; why their
//! caches agree at every moment, and why what the rack notes is a run of the abstract machine.
#![tactic(auto)]

mod acts;
mod laws;
mod laws_at_once;
mod laws_of_accesses;
mod laws_of_hits;
mod laws_of_images;
mod laws_of_notes;
mod laws_of_quiet;
mod laws_of_waits;
mod racks;
mod sends;
mod starts;

pub use laws::{
    caches_agree, every_event_keeps_coherence, notes_stand_in_their_places, one_writer_in_the_rack,
    runs_are_runs_of_the_machine, steps_and_drains_run_the_machine,
};
pub use laws_at_once::what_happens_at_once;
pub use laws_of_accesses::accesses_hold_their_pages;
pub use laws_of_hits::hits_are_released;
pub use laws_of_images::the_newest_image;
pub use laws_of_notes::{blades_tell_what_they_did, logs_tell_what_is_there};
pub use laws_of_quiet::quiet_when_nothing_is_under_way;
pub use laws_of_waits::waits_fit;
pub use racks::Rack;
