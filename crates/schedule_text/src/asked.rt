//! The commands among events.

ghost use Rattle.std.specs.Prelude.{◌≡◌, ◌≤◌, length, IfOk};
ghost use Rattle.std.specs.List.{filter_map};
ghost use Rattle.schedule_text.specs.Asked.{command_of};

use mind_base::{Command, Event, NoMemory};
use std::alloc::Global;

/// The commands of a schedule, in order.
pub fn commands_of(alloc: Global, events: &[Event]) -> Result<Vec<Command>, NoMemory>
    requires { length events.now ≤ 1000000 }
    ensures { IfOk result (λ commands. commands.items ≡ filter_map command_of events.now) }
{
    let commands = events.iter().filter_map(command_in).collect(alloc)?;
    Ok(commands)
}

fn command_in(event: &Event) -> Option<Command>
    ensures { result ≡ command_of event.now }
{
    match event {
        Event::Ask { command } => Some(*command),
        _ => None,
    }
}
