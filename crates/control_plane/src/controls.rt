//! The commands of a rack, of which one is under way at a time.

ghost use Rattle.std.specs.Prelude.{◌≡◌, ◌≢◌, ◌↔◌, ◌^◌, IsNone, OnOk, OnErr, bit_xor};
ghost use Rattle.std.specs.Int.{bit_at};
ghost use Rattle.control_plane.specs.Control.{ControlView, IsControl, PhaseWaitsFor, IsApplying, no_commands, can_begin, phase_answered, closed_by, after_ask, after_begin, after_closed, after_finish};

use crate::{Asked, Phase};
use mind_base::{Command, Stop};
use std::alloc::Global;
use std::collections::VecDeque;
use std::marker::Model;

/// The commands of a rack: one under way, and those that wait for it to end, the oldest first. They
/// are numbered from 1 as they begin. Contracts see the blades, the phase, the command under way, those
/// that wait, how many were asked, and the last number.
#[derive(Drop)]
pub struct Control {
    blades: u8,
    phase: Phase,
    current: Option<Command>,
    waiting: VecDeque<Asked>,
    asked: u32,
    last: u32,
}

impl Model for Control {
    ghost use Rattle.control_plane.specs.Control.{ControlView, IsControl, control_of};

    ghost Value = { ControlView };

    ghost view = { λ c. control_of c.blades c.phase c.current c.waiting.items c.asked c.last };

    ghost invariant = { λ c. IsControl (control_of c.blades c.phase c.current c.waiting.items c.asked c.last) };
}

impl Control {
    /// No command was asked yet. `blades` are all blades of the rack, a bit for each. It takes no
    /// memory.
    pub fn new(alloc: Global, blades: u8) -> Control
        requires { blades ≢ 0 }
        ensures fresh { result ≡ no_commands blades }
        ensures valid { IsControl result }
    {
        Control {
            blades,
            phase: Phase::Free,
            current: None,
            waiting: VecDeque::new(alloc),
            asked: 0,
            last: 0,
        }
    }

    /// Puts a command behind those that wait. `Spent` exactly where as many were asked as there are
    /// numbers. After an error nothing has changed.
    pub fn ask(&mut self, index: u32, command: Command) -> Result<(), Stop>
        ensures asked { OnOk result (self.new ≡ after_ask self.old (record { index = index; command = command })) }
        ensures spent { (result ≡ Err Stop.Spent) ↔ (self.old.asked ≡ 4294967295) }
        ensures unchanged { OnErr result (self.new ≡ self.old) }
        ensures valid { IsControl self.new }
    {
        if self.asked == u32::MAX {
            return Err(Stop::Spent);
        }
        self.waiting.push_back(Asked { index, command })?;
        self.asked += 1;
        Ok(())
    }

    /// How far the command under way has come.
    pub fn phase(&self) -> Phase
        ensures phase { result ≡ self.now.phase }
        ensures valid { IsControl self.now }
    {
        self.phase
    }

    /// The command under way; None exactly where none is.
    pub fn current(&self) -> Option<Command>
        ensures current { result ≡ self.now.current }
        ensures free { IsNone result ↔ (self.now.phase ≡ Phase.Free) }
        ensures valid { IsControl self.now }
    {
        self.current
    }

    /// Begins the oldest command that waits, under the next number: all blades are to close its pages.
    /// False exactly where one is under way or none waits; then nothing changes.
    pub fn begin(&mut self) -> bool
        ensures begins { result ≡ can_begin self.old }
        ensures begun { self.new ≡ after_begin self.old }
        ensures valid { IsControl self.new }
    {
        let Phase::Free = self.phase else {
            return false;
        };
        let Some(asked) = self.waiting.pop_front() else {
            return false;
        };
        self.last += 1;
        self.phase = Phase::Closing {
            index: asked.index,
            number: self.last,
            waiting: self.blades,
        };
        self.current = Some(asked.command);
        true
    }

    /// Takes the answer of a blade that has closed the pages of the command with this number. When all
    /// blades have answered, the command is applied.
    pub fn closed(&mut self, number: u32, blade: u8)
        requires { PhaseWaitsFor number blade self.old.phase }
        ensures closed { self.new ≡ after_closed self.old blade }
        ensures valid { IsControl self.new }
    {
        self.phase = answered(self.phase, number, blade);
    }

    /// Ends the command that was applied.
    pub fn finish(&mut self)
        requires { IsApplying self.old.phase }
        ensures finished { self.new ≡ after_finish self.old }
        ensures valid { IsControl self.new }
    {
        self.phase = Phase::Free;
        self.current = None;
    }
}

/// The phase when a blade that it waits for has answered.
fn answered(phase: Phase, number: u32, blade: u8) -> Phase
    requires { PhaseWaitsFor number blade phase }
    ensures { result ≡ phase_answered blade phase }
{
    match phase {
        Phase::Closing {
            index,
            number,
            waiting,
        } => closed_by(index, number, waiting, blade),
        Phase::Free => phase,
        Phase::Applying { .. } => phase,
    }
}

/// The phase when this blade, which was waited for, is waited for no longer.
fn closed_by(index: u32, number: u32, waiting: u8, blade: u8) -> Phase
    requires { bit_at waiting blade ≡ 1 }
    ensures { result ≡ closed_by index number (bit_xor waiting (2 ^ blade)) }
{
    let left = waiting ^ (1 << blade);
    if left == 0 {
        Phase::Applying { index, number }
    } else {
        Phase::Closing {
            index,
            number,
            waiting: left,
        }
    }
}
