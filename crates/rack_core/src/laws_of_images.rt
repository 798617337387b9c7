//! The law of the newest image of a page, as clauses of a function that does nothing.

ghost use Rattle.std.specs.Prelude.{◌≡◌, ℕ, Some, slice_index};
ghost use Rattle.coherence.specs.Facts.{IsCoherent};
ghost use Rattle.mind_base.specs.Page.{PageView, page_of, page_offset_at};
ghost use Rattle.page_cache.specs.declared.frames.Frame.{Frame as frame};
ghost use Rattle.page_image.specs.PageImage.{PageImageView};
ghost use Rattle.rack_core.specs.Newest.{newest_image};
ghost use Rattle.rack_core.specs.Rack.{RackView};
ghost use Rattle.rack_core.specs.Safe.{IsSafe};
ghost use Rattle.rack_core.specs.Seen.{frame_at, seen};
ghost use Rattle.rack_core.specs.Stands.{RackStandsFor};
ghost use Rattle.switch_core.specs.Switch.{place_in};
ghost use Rattle.tso_machine.specs.Memory.{byte_of};
ghost use Rattle.tso_machine.specs.State.{State};

/// The newest image of a page that lies somewhere is the one that is found: at the blade that holds the page to
/// write, else under way back, else under way to its place, else there. Each frame that a blade holds has it, and
/// where the rack stands for a state of the abstract machine it has the machine's bytes.
pub fn the_newest_image()
    ensures newest { (rack : RackView) (flat : PageView → PageImageView) (page : PageView) (place : ℕ × ℕ)
        → IsCoherent (seen rack flat) → place_in rack.switch page ≡ Some place → newest_image rack page ≡ flat page }
    ensures held { (rack : RackView) (blade : ℕ) (page : PageView) (f : frame)
        → IsSafe rack → frame_at rack.blades blade page ≡ Some f → f.image ≡ newest_image rack page }
    ensures bytes { (rack : RackView) (flat : PageView → PageImageView) (m : State) (domain address : ℕ) (place : ℕ × ℕ)
        → IsCoherent (seen rack flat) → RackStandsFor rack flat m → place_in rack.switch (page_of domain address) ≡ Some place
        → byte_of m.writes domain address ≡ slice_index (newest_image rack (page_of domain address)).bytes (page_offset_at address) }
{}
