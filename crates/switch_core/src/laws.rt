//! Laws of what the switch does, over all switches: functions that do nothing, with the laws as clauses.

ghost use Rattle.mind_base.specs.declared.links.LinkName.{LinkName as name};
ghost use Rattle.wire_msg.specs.declared.msgs.Msg.{Msg as message};
ghost use Rattle.switch_core.specs.Deeds.{IsDeedsOf};
ghost use Rattle.switch_core.specs.Handling.{Receives};
ghost use Rattle.switch_core.specs.Switch.{SwitchEffect, SwitchView};

/// What the switch does with a message is what the message itself does, and then deeds in a row, each of which
/// may be done where it stands. So what every such deed keeps, all of it keeps.
pub fn receiving_is_deeds()
    ensures { (link : name) → (msg : message) → (switch : SwitchView) → (effect : SwitchEffect) → Receives link msg switch effect
        → IsDeedsOf link msg switch effect }
{}
