//! The law of what a blade sends, as clauses of a function that does nothing.

ghost use Rattle.std.specs.Prelude.{◌≡◌, ◌+◌, ◌≤◌, ℕ, List, Some};
ghost use Rattle.std.specs.List.{AllByRecursion};
ghost use Rattle.compute_blade.specs.Blade.{BladeEffect, BladeView};
ghost use Rattle.compute_blade.specs.Messages.{MayComeToBlade, after_message};
ghost use Rattle.compute_blade.specs.Steps.{blade_after_drain};
ghost use Rattle.memory_blade.specs.MemoryBlade.{answer_to};
ghost use Rattle.mind_base.specs.declared.images.Image.{Image as image};
ghost use Rattle.page_image.specs.PageImage.{PageImageView};
ghost use Rattle.rack_core.specs.BladeMoves.{IsRequest};
ghost use Rattle.rack_core.specs.Events.{answer_to_switch};
ghost use Rattle.rack_settle.specs.Weight.{HasToDrain, blade_weight, messages_weight, sent_weight, weight_of};
ghost use Rattle.wire_msg.specs.declared.msgs.Msg.{Msg as message};

/// A blade that handles a message makes the weight of what is still to come less, by at least one. A compute blade
/// does so at each message that may come to it: its own weight, of frames that it may have to send back and of stores that
/// its harts have still to drain, and that of what it sends are then less than its weight was and the message's. Each of its requests is one that a step or a
/// drain waits for, as in every rack; so no drain that goes on asks again. A drain of a
/// hart that has a store to drain makes it less too, whether the store takes effect or its page is asked for. A memory blade does so at each message.
pub fn blades_send_less()
    ensures compute { (images : List image) (msg : message) (blade : BladeView)
        → AllByRecursion (IsRequest blade.plan.threads blade.harts) blade.requests → MayComeToBlade blade msg
        → blade_weight (after_message images msg blade).blade + messages_weight (after_message images msg blade).sent + 1
        ≤ blade_weight blade + weight_of msg }
    ensures drain { (h : ℕ) (blade : BladeView) (effect : BladeEffect) → HasToDrain h blade → blade_after_drain h blade ≡ Some effect
        → blade_weight effect.blade + messages_weight effect.sent + 1 ≤ blade_weight blade }
    ensures memory { (number : ℕ) (images : List PageImageView) (msg : message)
        → sent_weight (answer_to_switch number (answer_to images msg)) + 1 ≤ weight_of msg }
{}
