//! Rounds of steps of all threads.

ghost use Rattle.std.specs.Prelude.{◌≡◌, ◌<◌, ◌^◌, ◌++◌, length, OnOk};
ghost use Rattle.schedule_text.specs.Round.{turn, turns, rounds, written_out};

use crate::entries::Entry;
use mind_base::{Event, NoMemory};
use std::slice;

/// How many events an entry stands for.
pub fn event_count(threads: u8, entry: &Entry) -> usize
    ensures count { result ≡ length (written_out threads entry.now) }
    ensures small { result < 2 ^ 43 }
{
    match entry {
        Entry::Nothing => 0,
        Entry::One(_) => 1,
        Entry::Rounds(count) => 4 * threads as usize * *count as usize,
    }
}

/// Puts the events that an entry stands for behind the others.
pub fn push_entry(events: &mut Vec<Event>, threads: u8, entry: &Entry) -> Result<(), NoMemory>
    ensures { OnOk result (events.new.items ≡ events.old.items ++ written_out threads entry.now) }
{
    match entry {
        Entry::Nothing => Ok(()),
        Entry::One(event) => {
            events.extend_from_slice(slice::from_ref(event))?;
            Ok(())
        }
        Entry::Rounds(count) => push_rounds(events, threads, *count),
    }
}

#[tactic(auto, unfolding(crate::specs::Round::rounds))]
fn push_rounds(events: &mut Vec<Event>, threads: u8, count: u32) -> Result<(), NoMemory>
    ensures { OnOk result (events.new.items ≡ events.old.items ++ rounds threads count) }
{
    for _ in 0..count {
        push_round(events, threads)?;
    }
    Ok(())
}

#[tactic(auto, unfolding(crate::specs::Round::turns))]
fn push_round(events: &mut Vec<Event>, threads: u8) -> Result<(), NoMemory>
    ensures { OnOk result (events.new.items ≡ events.old.items ++ turns threads) }
{
    for hart in 0..threads {
        push_turn(events, hart)?;
    }
    Ok(())
}

fn push_turn(events: &mut Vec<Event>, hart: u8) -> Result<(), NoMemory>
    ensures { OnOk result (events.new.items ≡ events.old.items ++ turn hart) }
{
    let turn = [
        Event::Step { hart },
        Event::Settle,
        Event::Drain { hart },
        Event::Settle,
    ];
    events.extend_from_slice(&turn)?;
    Ok(())
}
