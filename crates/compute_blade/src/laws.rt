//! Laws of what the calls of a blade do, over all blades: functions that do nothing, with the laws as clauses.

ghost use Rattle.std.specs.Prelude.{ℕ, List, IfSome};
ghost use Rattle.mind_base.specs.Page.{PageView};
ghost use Rattle.mind_base.specs.declared.images.Image.{Image as image};
ghost use Rattle.page_cache.specs.PageCache.{IsPageCache};
ghost use Rattle.wire_msg.specs.declared.msgs.Msg.{Msg as message};
ghost use Rattle.compute_blade.specs.Actions.{IsActions};
ghost use Rattle.compute_blade.specs.Blade.{BladeView};
ghost use Rattle.compute_blade.specs.Messages.{MayComeToBlade, after_message};
ghost use Rattle.compute_blade.specs.Pages.{evicted};
ghost use Rattle.compute_blade.specs.Steps.{after_step, blade_after_drain};

/// What each call does to a blade is actions in a row, each of which may happen where it stands. So what every
/// such action keeps, each call keeps.
pub fn calls_are_actions()
    ensures step { (images : List image) (h : ℕ) (blade : BladeView) → IfSome (after_step images h blade) (IsActions blade) }
    ensures drain { (h : ℕ) (blade : BladeView) → IfSome (blade_after_drain h blade) (IsActions blade) }
    ensures evict { (page : PageView) (blade : BladeView) → IsActions blade (evicted page blade) }
    ensures receive { (images : List image) (msg : message) (blade : BladeView) → IsPageCache blade.cache → MayComeToBlade blade msg
        → IsActions blade (after_message images msg blade) }
{}
