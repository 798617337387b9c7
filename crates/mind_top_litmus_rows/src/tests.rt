//! Programs on racks, with the reports that are expected: what an access waits for comes before the next access, where the
//! rack settles or by deliveries one by one.

mod independent_reads;
mod memory_rows;
mod messages;
mod orders_of_stores;
mod racks;
mod store_buffering;
