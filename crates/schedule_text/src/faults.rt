//! Why a line is none of a schedule.

/// What is wrong with a line, in the order in which it is looked for: a byte that may not stand in a
/// text, an unknown first word, another number of words; then, argument by argument, what is no
/// number, a number outside its range, no wire or link of the rack, no permission; and last that
/// the events of the schedule are more than 1,000,000.
#[derive(Clone, Copy, Debug, PartialEq, Eq)]
pub enum LineFault {
    Text,
    Word,
    Count,
    Number,
    Range,
    Wire,
    Perm,
    Events,
}
