//! Programs on racks that settle.

mod lost_and_repeated;
mod programs;
mod racks;
mod racks_one_to_five;
mod racks_six_to_ten;
mod settled;
mod spin_lock;
