//! The report of a run, and the check of a journal.

ghost use Rattle.std.specs.Prelude.{◌≡◌, IfOk};
ghost use Rattle.mind_base.specs.Fit.{IsFit, FitImages};
ghost use Rattle.tso_machine.specs.State.{start_state};
ghost use Rattle.tso_machine.specs.Machine.{StandsFor};
ghost use Rattle.mind_steps.specs.Run.{setup_of, Checks, IsReportOf, IsWholeRun};

use mind_base::{Image, Log, NoMemory, RackPlan};
use report_text::report;
use std::alloc::Global;
use tso_machine::{Machine, Replay};

/// What a journal was checked to be: a run, with its report; or none, with the number of its first label
/// that is not enabled, from 0.
#[derive(Debug, Drop)]
pub enum Checked {
    Report { text: Vec<u8> },
    NotARun { label: usize },
}

/// The machine of a plan and its images at its start, with no commands.
fn machine_of(alloc: Global, plan: &RackPlan, images: &[Image]) -> Result<Machine, NoMemory>
    requires fit { IsFit plan.now }
    requires images { FitImages plan.now.images images.now }
    ensures setup { IfOk result (λ machine. machine.setup ≡ setup_of plan.now images.now) }
    ensures start { IfOk result (λ machine. StandsFor machine (start_state (setup_of plan.now images.now))) }
{
    Machine::start(alloc, plan, images, &[])
}

/// Replays the labels of a journal on the machine of a fit plan and its images, from its start.
pub fn check(
    alloc: Global,
    plan: &RackPlan,
    images: &[Image],
    journal: &Log,
) -> Result<Checked, NoMemory>
    requires fit { IsFit plan.now }
    requires images { FitImages plan.now.images images.now }
    ensures { IfOk result (Checks (setup_of plan.now images.now) journal.now.notes) }
{
    let mut machine = machine_of(alloc, plan, images)?;
    match machine.replay(journal)? {
        Replay::Whole => {
            let text = report(alloc, plan, &machine, &[], journal)?;
            Ok(Checked::Report { text })
        }
        Replay::Stuck { label } => Ok(Checked::NotARun { label }),
    }
}

/// The report of a log whose labels replay whole on the machine of a fit plan and its images, from its start.
pub fn report_of(
    alloc: Global,
    plan: &RackPlan,
    images: &[Image],
    log: &Log,
) -> Result<Vec<u8>, NoMemory>
    requires fit { IsFit plan.now }
    requires images { FitImages plan.now.images images.now }
    requires run { IsWholeRun (setup_of plan.now images.now) log.now.notes }
    ensures { IfOk result (λ text. IsReportOf (setup_of plan.now images.now) log.now.notes text.items) }
{
    match check(alloc, plan, images, log)? {
        Checked::Report { text } => Ok(text),
        Checked::NotARun { .. } => unreachable!(),
    }
}
