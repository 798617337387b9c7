//! A rack settles: what is under way is delivered until nothing is, and what waits is performed then, each once. And a
//! rack runs through the events of a schedule, of which a settling is one.
#![tactic(auto)]

mod laws_of_blades;
mod laws_of_labels;
mod laws_of_links;
mod laws_of_schedules;
mod laws_of_switch;
mod running;
mod settling;

pub use laws_of_blades::blades_send_less;
pub use laws_of_labels::{
    labels_of_settled_events_are_determined, settled_stretches_have_their_labels,
    settling_performs_what_waits, what_waits_is_performed_once,
};
pub use laws_of_links::each_turn_leaves_fewer;
pub use laws_of_schedules::{
    labels_are_not_late, labels_stand_at_once, schedules_have_settled_labels,
};
pub use laws_of_switch::the_switch_sends_less;
pub use running::run_all;
pub use settling::settle;
