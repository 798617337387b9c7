//! The program over files in memory.

mod calls;
mod checks;
mod ends;
mod faults;
mod forms;
mod instructions;
mod journals;
mod made;
mod orders;
mod runs;
