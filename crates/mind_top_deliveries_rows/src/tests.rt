//! Programs on racks whose messages are delivered one by one.

mod racks_one_to_five;
mod racks_six_to_ten;
mod waiting;
