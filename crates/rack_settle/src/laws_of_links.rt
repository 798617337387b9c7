//! The law of the measure that each turn lowers, as clauses of a function that does nothing.

ghost use Rattle.std.specs.Prelude.{◌≡◌, ◌<◌, ℕ, List, Some, slice_get};
ghost use Rattle.mind_base.specs.declared.events.Event.TheVariants.{Deliver, Drain, Resend};
ghost use Rattle.mind_base.specs.declared.images.Image.{Image as image};
ghost use Rattle.mind_base.specs.declared.links.LinkName.{LinkName as link_name};
ghost use Rattle.mind_base.specs.declared.links.Side.{Side as side_of};
ghost use Rattle.mind_base.specs.declared.notes.Note.{Note as note};
ghost use Rattle.compute_blade.specs.Blade.{BladeView};
ghost use Rattle.mind_base.specs.declared.plans.ThreadPlan.{ThreadPlan as thread_plan};
ghost use Rattle.rack_core.specs.Calls.{IsKept, HasNoFrame};
ghost use Rattle.rack_core.specs.Events.{Leads};
ghost use Rattle.rack_core.specs.Rack.{RackView};
ghost use Rattle.rack_net.specs.Net.{IsNet, IsFirstFrame, IsFirstKept};
ghost use Rattle.rack_settle.specs.Turns.{turns_left};
ghost use Rattle.rack_settle.specs.Weight.{HasToDrain};

/// Each turn of a settling leaves fewer: the delivery of the first frame of the first wire that has one, and sending
/// again on the first link that keeps messages, where no wire has a frame. So does the drain of a hart that has a
/// store to drain, whether it takes effect or asks for its page.
pub fn each_turn_leaves_fewer()
    ensures deliver { (images : List image) (name : link_name) (side : side_of) (old new : RackView) (noted : List note)
        → IsKept old → IsNet old.net → IsNet new.net → IsFirstFrame old.net name side
        → Leads images (Deliver name side 0) old new noted → turns_left new < turns_left old }
    ensures resend { (images : List image) (name : link_name) (old new : RackView) (noted : List note)
        → IsKept old → IsNet old.net → HasNoFrame old.net → IsFirstKept old.net name
        → Leads images (Resend name) old new noted → turns_left new < turns_left old }
    ensures drain { (images : List image) (h : ℕ) (thread : thread_plan) (blade : BladeView) (old new : RackView) (noted : List note)
        → IsNet new.net → slice_get old.plan.threads h ≡ Some thread → slice_get old.blades thread.blade ≡ Some blade → HasToDrain h blade
        → Leads images (Drain h) old new noted → turns_left new < turns_left old }
{}
