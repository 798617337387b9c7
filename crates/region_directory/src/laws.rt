//! The law of room by merging: a function that does nothing, with the law as clauses.

ghost use Rattle.std.specs.Prelude.{◌≡◌, ◌↔◌, ℕ, List};
ghost use Rattle.mind_base.specs.Page.{PageView};
ghost use Rattle.region_directory.specs.Directory.{DirectoryView};
ghost use Rattle.region_directory.specs.Room.{room_of, room_by_merging, IsUnpaired, MustWaitUnpaired, MergesFirst};
ghost use Rattle.region_directory.specs.declared.rooms.Room.{Room};

/// Where no entry may become one with the next one, room is made as without merging. Else the first such
/// two become one, unless an entry can be dropped: nothing is waited for, and nothing taken, before.
pub fn pairs_merge_before_anything_waits()
    ensures unpaired { (directory : DirectoryView) (fetching : List PageView) → IsUnpaired directory
        → room_by_merging directory fetching ≡ room_of directory fetching }
    ensures merges { (directory : DirectoryView) (fetching : List PageView) (i : ℕ)
        → (room_by_merging directory fetching ≡ Room.Merge i) ↔ MergesFirst directory i }
    ensures waits { (directory : DirectoryView) (fetching : List PageView)
        → (room_by_merging directory fetching ≡ Room.Wait) ↔ MustWaitUnpaired directory fetching }
{}
