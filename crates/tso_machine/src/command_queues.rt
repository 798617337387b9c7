//! The commands of a run, taken in their order.

ghost use Rattle.std.specs.Prelude.{◌≡◌, ◌≤◌, ◌++◌, ◌∷◌, [], length, take, drop, Some, IfOk, IfSome, IsSomeAnd, slice_get};
ghost use Rattle.control_plane.specs.Outcome.{IsChange};
ghost use Rattle.tso_machine.specs.Commands.{is_change, outcome_at, next_command};
ghost use Rattle.tso_machine.specs.Queue.{taken_commands, IsPassed, IsQueue, command_if_next};

use mind_base::{Command, NoMemory, Outcome, Sequence};
use std::alloc::Global;
use std::marker::Model;

/// The commands of a machine, with the outcomes of those that were taken. Maps, unmaps and protects are
/// taken in their order; a migrate is passed by.
#[derive(Drop)]
pub struct CommandQueue {
    commands: Sequence<Command>,
    outcomes: Vec<Option<Outcome>>,
    next: usize,
}

impl Model for CommandQueue {
    ghost use Rattle.std.specs.Prelude.{take};
    ghost use Rattle.tso_machine.specs.Queue.{CommandQueueView, taken_commands, IsQueue};

    ghost Value = { CommandQueueView };

    ghost view = { λ q. record { commands = q.commands; taken = taken_commands 0 (take q.next q.outcomes.items) } };

    ghost invariant = { λ q. IsQueue q.commands q.outcomes.items q.next };
}

impl CommandQueue {
    /// The commands, none of them taken.
    pub fn new(alloc: Global, commands: &[Command]) -> Result<CommandQueue, NoMemory>
        ensures { IfOk result (λ queue. queue ≡ record { commands = commands.now; taken = [] }) }
    {
        let commands = Sequence::from_vec(Vec::from_slice(alloc, commands)?);
        let mut outcomes = vec![in alloc; None; commands.len()]?;
        let next = pass_moves(&mut outcomes, commands.as_slice(), 0);
        Ok(CommandQueue {
            commands,
            outcomes,
            next,
        })
    }

    /// The command with this number, if it is the next to be taken.
    pub fn command_if_next(&self, index: u32) -> Option<Command>
        ensures next { result ≡ command_if_next self.now index }
        ensures change { IfSome result (λ command. IsChange command) }
    {
        if index as usize != self.next {
            return None;
        }
        let commands = self.commands.as_slice();
        if self.next >= commands.len() {
            return None;
        }
        Some(commands[self.next])
    }

    /// Takes the next command, which has this number, with its outcome.
    pub fn take(&mut self, index: u32, outcome: Outcome)
        requires { next_command self.old.commands self.old.taken ≡ Some index }
        ensures { self.new ≡ record { commands = self.old.commands; taken = self.old.taken ++ record { index = index; outcome = outcome } ∷ [] } }
    {
        self.outcomes[self.next] = Some(outcome);
        self.next = pass_moves(&mut self.outcomes, self.commands.as_slice(), self.next + 1);
    }

    /// How the command with this number ended; None where it was not taken.
    pub fn outcome(&self, index: u32) -> Option<Outcome>
        ensures taken { result ≡ outcome_at self.now.taken index }
        ensures change { IfSome result (λ _. IsSomeAnd (slice_get self.now.commands index) IsChange) }
    {
        let index = index as usize;
        if index < self.next {
            self.outcomes[index]
        } else {
            None
        }
    }
}

fn is_change(command: Command) -> bool
    ensures { result ≡ is_change command }
{
    match command {
        Command::Map { .. } | Command::Unmap { .. } | Command::Protect { .. } => true,
        Command::Migrate { .. } => false,
    }
}

/// Passes by the migrates from number `from` on: the number of the first command from there that is
/// none, or how many commands there are.
fn pass_moves(outcomes: &mut Vec<Option<Outcome>>, commands: &[Command], from: usize) -> usize
    requires { IsPassed commands.now outcomes.old.items from }
    ensures queue { IsQueue commands.now outcomes.new.items result }
    ensures taken { taken_commands 0 (take result outcomes.new.items) ≡ taken_commands 0 (take from outcomes.old.items) }
{
    for i in from..commands.len() {
        if is_change(commands[i]) {
            return i;
        }
        outcomes[i] = None;
    }
    commands.len()
}
