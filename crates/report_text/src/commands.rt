//! The lines of commands.

ghost use Rattle.std.specs.Prelude.{◌≡◌, ◌≤◌, ◌++◌, OnOk, length};
ghost use Rattle.mind_base.specs.OutcomeWord.{outcome_word};
ghost use Rattle.report_text.specs.CommandLine.{command_word, outcome_text, command_line, command_lines};

use crate::moves::first_moves;
use mind_base::{Command, Log, NoMemory, Outcome};
use plain_text::put_decimal;
use std::alloc::Global;
use tso_machine::Machine;

fn word_for(command: &Command) -> &'static [u8]
    ensures { result.now ≡ command_word command.now }
{
    match command {
        Command::Map { .. } => b"map",
        Command::Unmap { .. } => b"unmap",
        Command::Protect { .. } => b"protect",
        Command::Migrate { .. } => b"migrate",
    }
}

fn text_of(outcome: Option<Outcome>) -> &'static [u8]
    ensures { result.now ≡ outcome_text outcome }
{
    match outcome {
        Some(outcome) => outcome.word(),
        None => b"waiting",
    }
}

/// The line of one command.
fn put_command(
    alloc: Global,
    out: &mut Vec<u8>,
    index: u32,
    command: &Command,
    outcome: Option<Outcome>,
) -> Result<(), NoMemory>
    ensures { OnOk result (out.new.items ≡ out.old.items ++ command_line index command.now outcome) }
{
    out.extend_from_slice(b"command ")?;
    put_decimal(alloc, out, u64::from(index))?;
    out.extend_from_slice(b" ")?;
    out.extend_from_slice(word_for(command))?;
    out.extend_from_slice(b" ")?;
    out.extend_from_slice(text_of(outcome))?;
    out.extend_from_slice(b"\n")?;
    Ok(())
}

/// The lines of the commands, of which the machine took some and the log has the moves.
pub fn put_commands(
    alloc: Global,
    out: &mut Vec<u8>,
    machine: &Machine,
    commands: &[Command],
    log: &Log,
) -> Result<(), NoMemory>
    requires { length commands.now ≤ 1000000 }
    ensures { OnOk result (out.new.items ≡ out.old.items ++ command_lines commands.now machine.now.taken log.now.notes) }
{
    let moves = first_moves(alloc, log, commands.len())?;
    for i in 0..commands.len() {
        let outcome = machine.outcome(i as u32).or(moves[i]);
        put_command(alloc, out, i as u32, &commands[i], outcome)?;
    }
    Ok(())
}
