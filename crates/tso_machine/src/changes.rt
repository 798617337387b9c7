//! What a command does to permissions, memory and reservations.

ghost use Rattle.std.specs.Prelude.{◌≡◌, ◌≤◌, length, OnOk, OnErr, if◌then◌else◌};
ghost use Rattle.control_plane.specs.Outcome.{IsChange, permissions_after};
ghost use Rattle.flat_memory.specs.FlatMemory.{byte_in};
ghost use Rattle.mind_base.specs.Cover.{cover_of};
ghost use Rattle.mind_base.specs.Fit.{IsFit};
ghost use Rattle.protect_table.specs.Protect.{permission_at};
ghost use Rattle.tso_machine.specs.Commands.{is_buffered, is_held_up, threads_outside, threads_after, is_fine};
ghost use Rattle.tso_machine.specs.Queue.{bytes_after};

use crate::harts::Hart;
use control_plane::apply;
use flat_memory::FlatMemory;
use mind_base::{Command, NoMemory, Outcome, RackPlan, Span};
use protect_table::Protect;

/// Whether the command must wait: a thread buffers a store in a page of its span.
pub fn is_held_up(command: &Command, plan: &RackPlan, harts: &[Hart]) -> bool
    requires { IsFit plan.now }
    ensures { result ≡ is_held_up command.now plan.now.threads harts.now }
{
    match command {
        Command::Map { span, .. } | Command::Unmap { span } | Command::Protect { span, .. } => {
            is_buffered(span, plan, harts)
        }
        Command::Migrate { .. } => false,
    }
}

#[tactic(auto, using(crate::proofs::Waiting::fit_domain))]
fn is_buffered(span: &Span, plan: &RackPlan, harts: &[Hart]) -> bool
    requires { IsFit plan.now }
    ensures { result ≡ is_buffered span.now plan.now.threads harts.now }
{
    let threads = plan.threads.as_slice();
    for i in 0..threads.len().min(harts.len()) {
        if harts[i].buffers_in(span, threads[i].domain) {
            return true;
        }
    }
    false
}

/// Changes the permissions and the bytes as a command does that ended so. After an error both are as
/// they were.
pub fn carry_out(
    command: &Command,
    outcome: Outcome,
    perms: &mut Protect,
    memory: &mut FlatMemory,
) -> Result<(), NoMemory>
    requires change { IsChange command.now }
    requires room { outcome ≡ Outcome.Fine → cover_of (permissions_after command.now (permission_at perms.old)) ≤ perms.old.slots }
    ensures perms { OnOk result (permission_at perms.new ≡ (if is_fine outcome then permissions_after command.now (permission_at perms.old) else permission_at perms.old)) }
    ensures bytes { OnOk result (byte_in memory.new ≡ (if is_fine outcome then bytes_after command.now (byte_in memory.old) else byte_in memory.old)) }
    ensures slots { perms.new.slots ≡ perms.old.slots }
    ensures err { OnErr result ((perms.new ≡ perms.old) × (memory.new ≡ memory.old)) }
{
    match outcome {
        Outcome::Fine => {
            apply(command, perms)?;
            zero_mapped(command, memory);
            Ok(())
        }
        Outcome::Unplaced
        | Outcome::Overlap
        | Outcome::Unmapped
        | Outcome::Slots
        | Outcome::Same
        | Outcome::Room => Ok(()),
    }
}

/// A map makes its pages zero.
fn zero_mapped(command: &Command, memory: &mut FlatMemory)
    ensures { byte_in memory.new ≡ bytes_after command.now (byte_in memory.old) }
{
    match command {
        Command::Map { span, .. } => memory.zero(span),
        Command::Unmap { .. } | Command::Protect { .. } | Command::Migrate { .. } => {}
    }
}

/// Ends the reservations that the command takes away: those inside the span of a map or an unmap.
#[tactic(auto, using(crate::proofs::Counting::length_outside))]
pub fn end_reservations_by(command: &Command, harts: &mut Vec<Hart>)
    ensures threads { harts.new.items ≡ threads_after command.now harts.old.items }
    ensures count { length harts.new.items ≡ length harts.old.items }
{
    match command {
        Command::Map { span, .. } | Command::Unmap { span } => end_reservations_in(harts, span),
        Command::Protect { .. } | Command::Migrate { .. } => {}
    }
}

fn end_reservations_in(harts: &mut Vec<Hart>, span: &Span)
    ensures { harts.new.items ≡ threads_outside span.now harts.old.items }
{
    for i in 0..harts.len() {
        harts[i].end_reservation_in(span);
    }
}
