//! The law of a quiet rack, as clauses of a function that does nothing.

ghost use Rattle.rack_core.specs.Calls.{HasNoFrame, IsKept, IsQuiet, KeepsNothing};
ghost use Rattle.rack_core.specs.Rack.{RackView};

/// When no frame is on a wire and no link keeps a message, nobody waits: no blade has a request out, and the switch has
/// no request and no transition. So the links' traffic alone says whether a rack has come to rest.
pub fn quiet_when_nothing_is_under_way()
    ensures { (rack : RackView) → IsKept rack → HasNoFrame rack.net → KeepsNothing rack.net → IsQuiet rack }
{}
