//! Laws of every move: functions that do nothing, with the laws as clauses.

ghost use Rattle.std.specs.Prelude.{◌≡◌, ℕ, List, Option, Some, true};
ghost use Rattle.mind_base.specs.Page.{PageView};
ghost use Rattle.mind_base.specs.declared.commands.Perm.{Perm};
ghost use Rattle.page_cache.specs.declared.frames.Frame.{Frame};
ghost use Rattle.coherence.specs.Facts.{ArePlaced, IsCoherent};
ghost use Rattle.coherence.specs.Moves.{Move, May, moved, MayMerge, reshaped, split_into, merged_into};
ghost use Rattle.mind_base.specs.Range.{RangeView, halves_of};
ghost use Rattle.mind_base.specs.declared.notes.State.{State};
ghost use Rattle.coherence.specs.Runs.{Run, start};
ghost use Rattle.coherence.specs.World.{Region, World};

/// What is true at every moment stays true by every move, and so along every list of moves from a rack in
/// which nothing has been done, where no two pages lie at one place.
pub fn every_move_keeps_coherence()
    ensures move_keeps { (w : World) (move : Move) → IsCoherent w → May w move → IsCoherent (moved w move) }
    ensures starts { (places : PageView → Option (ℕ × ℕ)) (perms : PageView → Perm)
        → ArePlaced (start places perms) → IsCoherent (start places perms) }
    ensures run_keeps { (first last : World) (moves : List Move) → IsCoherent first → Run first moves last → IsCoherent last }
{}

/// An entry may be split at any moment, also while a transition of it is under way: both halves have its state
/// and its transition. Two entries without a transition whose blocks are the halves of one may be merged at any
/// moment, where the new state names who they named, and their owners own it.
pub fn regions_change_size()
    ensures splits { (w : World) (page : PageView) (region : Region) (lower upper : RangeView) → IsCoherent w
        → w.regions page ≡ Some region → halves_of region.range ≡ Some (lower, upper)
        → IsCoherent (reshaped (split_into lower upper region w.regions) w) }
    ensures merges { (w : World) (range : RangeView) (lower upper : Region) (state : State) → IsCoherent w
        → halves_of range ≡ Some (lower.range, upper.range) → MayMerge w lower upper state
        → IsCoherent (reshaped (merged_into range state w.regions) w) }
{}

/// In every such rack a page that a blade may write is held by no other blade, and each page that is held
/// has the newest content.
pub fn one_writer()
    ensures single_writer { (w : World) (a b : ℕ) (page : PageView) (f g : Frame) → IsCoherent w
        → w.frames a page ≡ Some f → f.writable ≡ true → w.frames b page ≡ Some g → a ≡ b }
    ensures newest { (w : World) (blade : ℕ) (page : PageView) (frame : Frame) → IsCoherent w
        → w.frames blade page ≡ Some frame → frame.image ≡ w.flat page }
{}
