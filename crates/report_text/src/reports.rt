//! The report of a machine and a log.

ghost use Rattle.std.specs.Prelude.{◌≡◌, ◌≤◌, length, IfOk};
ghost use Rattle.report_text.specs.Report.{report_text};

use crate::commands::put_commands;
use crate::counts::{counts_in, put_counts};
use crate::threads::put_threads;
use mind_base::{Command, Log, NoMemory, RackPlan};
use std::alloc::Global;
use tso_machine::Machine;

/// The report of a run, each line ended by LF: `mind 1`, a line for each thread in order, a line for each
/// command in order, and the line of counts. The machine is one made from this plan and these commands, at
/// the end of the run, and the log is that of the run. A command ended as the machine took it, or as the
/// first move of its number in the log did; else it waits.
pub fn report(
    alloc: Global,
    plan: &RackPlan,
    machine: &Machine,
    commands: &[Command],
    log: &Log,
) -> Result<Vec<u8>, NoMemory>
    requires made { machine.now.setup.plan ≡ plan.now }
    requires commands { machine.now.setup.commands ≡ commands.now }
    requires few_commands { length commands.now ≤ 1000000 }
    ensures { IfOk result (λ text. text.items ≡ report_text commands.now machine.now.threads machine.now.taken log.now.notes) }
{
    let mut out = Vec::new(alloc);
    out.extend_from_slice(b"mind 1")?;
    out.extend_from_slice(b"\n")?;
    put_threads(alloc, &mut out, machine)?;
    put_commands(alloc, &mut out, machine, commands, log)?;
    let counts = counts_in(alloc, log)?;
    put_counts(alloc, &mut out, &counts)?;
    Ok(out)
}
