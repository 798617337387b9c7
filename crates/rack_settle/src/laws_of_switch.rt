//! The law of what the switch sends, as clauses of a function that does nothing.

ghost use Rattle.std.specs.Prelude.{◌+◌, ◌≤◌};
ghost use Rattle.mind_base.specs.declared.links.LinkName.{LinkName as link_name};
ghost use Rattle.rack_settle.specs.Weight.{sent_weight, switch_weight, weight_of};
ghost use Rattle.switch_core.specs.Handling.{Receives};
ghost use Rattle.switch_core.specs.Switch.{SwitchEffect, SwitchView};
ghost use Rattle.wire_msg.specs.declared.msgs.Msg.{Msg as message};

/// Each message that the switch handles, on whatever link it came, makes the weight of what is still to come
/// less: what waits and is held then, and what was sent, weigh less than what waited and was held before, and
/// the message. So it is for every switch and every message, also those that no rack has.
pub fn the_switch_sends_less()
    ensures { (name : link_name) (m : message) (switch : SwitchView) (effect : SwitchEffect)
        → Receives name m switch effect
        → switch_weight effect.switch + sent_weight effect.sent + 1 ≤ switch_weight switch + weight_of m }
{}
