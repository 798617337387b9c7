//! The events of a schedule, or its first fault.

ghost use Rattle.std.specs.Prelude.{◌≡◌, ◌++◌, ◌≤◌, ◌<◌, ◌^◌, [], length, IfOk, OnOk};
ghost use Rattle.std.specs.Str.Lines.{lines};
ghost use Rattle.std.specs.List.{AllByRecursion};
ghost use Rattle.plain_text.specs.Reading.{Gives};
ghost use Rattle.schedule_text.specs.Schedule.{schedule_in, after_line, read_from};
ghost use Rattle.schedule_text.specs.Size.{sizes_of};
ghost use Rattle.schedule_text.specs.Event.{IsEventIn, IsEventOf};

use crate::entries::entry_in;
use crate::faults::LineFault;
use crate::rounds::{event_count, push_entry};
use crate::sizes::{Sizes, sizes_in};
use mind_base::{Event, RackPlan};
use plain_text::{LineRefusal, split_line};
use std::alloc::Global;

/// The most events of a schedule.
const MOST: usize = 1_000_000;

/// Reads the text of a schedule for a rack. A line of rounds is written out.
pub fn schedule_of(
    alloc: Global,
    bytes: &[u8],
    plan: &RackPlan,
) -> Result<Vec<Event>, LineRefusal<LineFault>>
    requires threads { length plan.now.threads ≤ 64 }
    requires blades { length plan.now.frames ≤ 8 }
    requires memories { length plan.now.memories ≤ 8 }
    requires short { length bytes.now < 2 ^ 32 }

    // What is read, and which line is refused for what, unless memory runs out.
    ensures exact { Gives (λ events. events.items) result (schedule_in plan.now bytes.now) }

    ensures most { IfOk result (λ events. length events.items ≤ 1000000) }
    ensures numbers { IfOk result (λ events. AllByRecursion (IsEventOf plan.now) events.items) }
{
    read_lines(alloc, sizes_in(plan), bytes)
}

fn read_lines(
    alloc: Global,
    sizes: Sizes,
    bytes: &[u8],
) -> Result<Vec<Event>, LineRefusal<LineFault>>
    requires { length bytes.now < 2 ^ 32 }
    ensures exact { Gives (λ events. events.items) result (read_from sizes 1 [] (lines bytes.now)) }
    ensures most { IfOk result (λ events. length events.items ≤ 1000000) }
    ensures numbers { IfOk result (λ events. AllByRecursion (IsEventIn sizes) events.items) }
{
    let mut events = Vec::new(alloc);
    let mut line: u32 = 0;
    let mut rest = bytes;
    while !rest.is_empty() {
        line += 1;
        let (text, after) = split_line(rest);
        add_line(&mut events, sizes, line, text)?;
        rest = after;
    }
    Ok(events)
}

/// Puts the events of one line, which has this number, behind the others.
#[tactic(auto, unfolding(crate::specs::Schedule::after_line, crate::specs::Schedule::with_line))]
fn add_line(
    events: &mut Vec<Event>,
    sizes: Sizes,
    line: u32,
    text: &[u8],
) -> Result<(), LineRefusal<LineFault>>
    requires few { length events.old.items ≤ 1000000 }
    requires numbers { AllByRecursion (IsEventIn sizes) events.old.items }
    requires short { length text.now < 2 ^ 32 }
    ensures added { Gives (λ _. events.new.items) result (after_line sizes line events.old.items text.now) }
    ensures few { OnOk result (length events.new.items ≤ 1000000) }
    ensures numbers { OnOk result (AllByRecursion (IsEventIn sizes) events.new.items) }
{
    let entry = match entry_in(sizes, text) {
        Ok(entry) => entry,
        Err(what) => return Err(LineRefusal::Refused { line, what }),
    };
    if events.len() + event_count(sizes.threads, &entry) > MOST {
        let what = LineFault::Events;
        return Err(LineRefusal::Refused { line, what });
    }
    push_entry(events, sizes.threads, &entry)?;
    Ok(())
}
