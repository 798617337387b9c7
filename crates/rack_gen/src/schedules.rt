//! The schedule that is drawn for a rack, as text and as events.

ghost use Rattle.std.specs.Prelude.{◌≡◌, ◌≤◌, ◌+◌, Ok, length, map, IfOk};
ghost use Rattle.std.specs.List.{flat_map, AllByRecursion};
ghost use Rattle.mind_base.specs.Fit.{Within};
ghost use Rattle.schedule_text.specs.Event.{IsEventOf};
ghost use Rattle.schedule_text.specs.Schedule.{schedule_in};
ghost use Rattle.schedule_text.specs.Size.{sizes_of};
ghost use Rattle.rack_gen.specs.Line.{event_of, line_text};
ghost use Rattle.rack_gen.specs.Generator.{lines_for, generated, generated_text};

use crate::draws::Generator;
use crate::lines::{Line, draw_line, event, put_line};
use crate::wires::make_wires;
use mind_base::{Event, NoMemory, RackPlan};
use std::alloc::Global;

/// The lines that are drawn for a rack, and the last, on which it settles.
#[tactic(auto, unfolding(crate::specs::Generator::lines_for))]
fn draw_lines(alloc: Global, plan: &RackPlan, count: u32, seed: u32) -> Result<Vec<Line>, NoMemory>
    requires threads { Within 1 64 (length plan.now.threads) }
    requires blades { Within 1 8 (length plan.now.frames) }
    requires memories { Within 1 8 (length plan.now.memories) }
    ensures { IfOk result (λ lines. lines.items ≡ lines_for (sizes_of plan.now) count seed) }
{
    let threads = plan.threads.len() as u8;
    let wires = make_wires(alloc, plan.frames.len() as u8, plan.memories.len() as u8)?;
    let mut generator = Generator { state: seed };
    let mut lines = Vec::new(alloc);
    for _ in 0..count {
        lines.push(draw_line(&mut generator, threads, wires.as_slice()))?;
    }
    lines.push(Line::Settle)?;
    Ok(lines)
}

fn text_of(alloc: Global, lines: &[Line]) -> Result<Vec<u8>, NoMemory>
    ensures { IfOk result (λ text. text.items ≡ flat_map line_text lines.now) }
{
    let mut text = Vec::new(alloc);
    for line in lines {
        put_line(alloc, &mut text, *line)?;
    }
    Ok(text)
}

fn events_of(alloc: Global, lines: &[Line]) -> Result<Vec<Event>, NoMemory>
    ensures { IfOk result (λ events. events.items ≡ map event_of lines.now) }
{
    let events = lines.iter().map(|line| event(*line)).collect(alloc)?;
    Ok(events)
}

/// The text of the schedule that the generator makes for a rack: `count` drawn lines, the seed being
/// the first state, and a last `settle`.
pub fn make(alloc: Global, plan: &RackPlan, count: u32, seed: u32) -> Result<Vec<u8>, NoMemory>
    requires threads { Within 1 64 (length plan.now.threads) }
    requires blades { Within 1 8 (length plan.now.frames) }
    requires memories { Within 1 8 (length plan.now.memories) }
    requires count { count ≤ 200000 }
    ensures text { IfOk result (λ text. text.items ≡ generated_text plan.now count seed) }

    // It is no longer than a schedule may be, and is read as the schedule of the generator's events.
    ensures short { IfOk result (λ text. length text.items ≤ 4194304) }
    ensures reads { IfOk result (λ text. schedule_in plan.now text.items ≡ Ok (generated plan.now count seed)) }
{
    let lines = draw_lines(alloc, plan, count, seed)?;
    let text = text_of(alloc, lines.as_slice())?;
    Ok(text)
}

/// The events of that schedule.
pub fn generated(
    alloc: Global,
    plan: &RackPlan,
    count: u32,
    seed: u32,
) -> Result<Vec<Event>, NoMemory>
    requires threads { Within 1 64 (length plan.now.threads) }
    requires blades { Within 1 8 (length plan.now.frames) }
    requires memories { Within 1 8 (length plan.now.memories) }
    requires count { count ≤ 200000 }
    ensures events { IfOk result (λ events. events.items ≡ generated plan.now count seed) }
    ensures lines { IfOk result (λ events. length events.items ≡ count + 1) }
    ensures numbers { IfOk result (λ events. AllByRecursion (IsEventOf plan.now) events.items) }
{
    let lines = draw_lines(alloc, plan, count, seed)?;
    let events = events_of(alloc, lines.as_slice())?;
    Ok(events)
}
