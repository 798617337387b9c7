//! The law of the calls of a control: a function that does nothing, with the law as clauses.

ghost use Rattle.std.specs.Prelude.{◌≡◌, ℕ, ◌+◌, ◌++◌, List, length, drop};
ghost use Rattle.std.specs.Int.{bit_at};
ghost use Rattle.control_plane.specs.Control.{ControlView};
ghost use Rattle.control_plane.specs.Calls.{ControlCall, ControlRun, asked_by, ended_by, answer_count, command_under_way};

use crate::Phase;

/// Whatever calls are made, from a new control on: the command under way and those that wait are the
/// ones that were asked for after those that have ended, in the order in which they were asked; so one
/// begins only when the one before it has ended. The last number is one more for each that has begun. A
/// command is applied only when each blade of the rack has answered once to its number.
pub fn one_at_a_time_in_order()
    ensures in_order { (blades : ℕ) (calls : List ControlCall) (control : ControlView) → ControlRun blades calls control
        → command_under_way control.phase control.current ++ control.waiting ≡ drop (ended_by calls) (asked_by calls) }
    ensures numbered { (blades : ℕ) (calls : List ControlCall) (control : ControlView) → ControlRun blades calls control
        → control.last ≡ ended_by calls + length (command_under_way control.phase control.current) }
    ensures all_have_closed { (blades : ℕ) (calls : List ControlCall) (control : ControlView) (index number blade : ℕ)
        → ControlRun blades calls control → control.phase ≡ Phase.Applying index number
        → answer_count number blade calls ≡ bit_at blades blade }
{}
