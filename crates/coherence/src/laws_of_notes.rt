//! Laws of what notes tell: functions that do nothing, with the laws as clauses.

ghost use Rattle.std.specs.Prelude.{◌≡◌, ◌⊎◌, ℕ, Bool, false, true, List, [], ◌∷◌, ◌++◌, fold, Option, Some, None, IfSome, is_some, option_map};
ghost use Rattle.mind_base.specs.Page.{PageView};
ghost use Rattle.mind_base.specs.Range.{RangeView, in_range};
ghost use Rattle.mind_base.specs.declared.notes.Note.TheVariants as note;
ghost use Rattle.mind_base.specs.declared.notes.Note.{Note};
ghost use Rattle.mind_base.specs.declared.notes.State.{State};
ghost use Rattle.mind_base.specs.declared.plans.RackPlan.{RackPlan};
ghost use Rattle.page_cache.specs.declared.frames.Frame.{Frame};
ghost use Rattle.coherence.specs.Facts.{IsCoherent};
ghost use Rattle.coherence.specs.Held.{Holdings, Entries, held_after, entries_after};
ghost use Rattle.coherence.specs.Lawful.{AreLawful, IsLawful, IsWithin, Matches, MayBeNoted, Tells, state_in};
ghost use Rattle.coherence.specs.World.{Region, World, put_both, put_range};

/// Where the rack is coherent, with no more pages held than there are frames and no more entries than slots, what
/// is held and which entries are in force is lawful. So a note that leads from what matches one world to what
/// matches such a rack tells how it came from there; no note tells that the same is held and in force; and notes
/// that tell how one world came from another, and others how a third came from that, tell it in a row. Where
/// entries are lawful as they were and as they become, they are so with some as they were and others as they become.
pub fn notes_tell_what_is_there()
    ensures lawful { (plan : RackPlan) (held : Holdings) (entries : Entries) (w : World)
        → IsCoherent w → IsWithin plan w → Matches held entries w → IsLawful plan held entries }
    ensures nothing { (plan : RackPlan) (old new : World)
        → ((blade : ℕ) (page : PageView) → option_map (λ (frame : Frame). frame.writable) (new.frames blade page) ≡ option_map (λ (frame : Frame). frame.writable) (old.frames blade page))
        → ((range : RangeView) → state_in new.regions range ≡ state_in old.regions range) → Tells plan old [] new }
    ensures in_a_row { (plan : RackPlan) (a b c : World) (first later : List Note)
        → Tells plan a first b → Tells plan b later c → Tells plan a (first ++ later) c }
    ensures between { (plan : RackPlan) (held : Holdings) (a b now : Entries) → IsLawful plan held a → IsLawful plan held b
        → ((range : RangeView) → is_some (a range) ≡ is_some (b range)) → ((range : RangeView) → (now range ≡ a range) ⊎ (now range ≡ b range))
        → IsLawful plan held now }
{}

/// Notes are lawful at every point just where each of them may be noted where it stands, and what is held and in force
/// after it is lawful.
pub fn lawful_at_every_point()
    ensures each { (plan : RackPlan) (held : Holdings) (entries : Entries) (before : List Note) (n : Note) (after : List Note) → AreLawful plan held entries (before ++ n ∷ after)
        → MayBeNoted (fold entries_after entries before) n × IsLawful plan (held_after (fold held_after held before) n) (entries_after (fold entries_after entries before) n) }
    ensures all { (plan : RackPlan) (held : Holdings) (entries : Entries) (noted : List Note)
        → ((before : List Note) (n : Note) (after : List Note) → noted ≡ before ++ n ∷ after
        → MayBeNoted (fold entries_after entries before) n × IsLawful plan (held_after (fold held_after held before) n) (entries_after (fold entries_after entries before) n))
        → AreLawful plan held entries noted }
{}

/// What each kind of note tells, where it leads to a coherent rack: a page is taken, given up, or may be written no
/// longer; an entry is put in or changes its state, or is dropped.
pub fn each_note_tells()
    ensures takes { (plan : RackPlan) (old new : World) (blade : ℕ) (page : PageView) (frame : Frame) (writable : Bool) → IsCoherent new → IsWithin plan new
        → new.frames ≡ put_both blade page (Some frame) old.frames → frame.writable ≡ writable → new.regions ≡ old.regions → Tells plan old (note.Take blade page writable ∷ []) new }
    ensures gives_up { (plan : RackPlan) (old new : World) (blade : ℕ) (page : PageView) → IsCoherent new → IsWithin plan new
        → new.frames ≡ put_both blade page None old.frames → new.regions ≡ old.regions → Tells plan old (note.Give blade page ∷ []) new }
    ensures lowers { (plan : RackPlan) (old new : World) (blade : ℕ) (page : PageView) (was now : Frame) → IsCoherent new → IsWithin plan new
        → new.frames ≡ put_both blade page (Some now) old.frames → old.frames blade page ≡ Some was → now.writable ≡ false → new.regions ≡ old.regions → Tells plan old (note.Down blade page ∷ []) new }
    ensures changes { (plan : RackPlan) (old new : World) (range : RangeView) (state : State) (region : Region) → IsCoherent new → IsWithin plan new → new.frames ≡ old.frames
        → new.regions ≡ put_range range (Some region) old.regions → region.range ≡ range → region.state ≡ state
        → ((page : PageView) → in_range range page ≡ true → IfSome (old.regions page) (λ (was : Region). was.range ≡ range)) → Tells plan old (note.Region range state ∷ []) new }
    ensures drops { (plan : RackPlan) (old new : World) (range : RangeView) → IsCoherent new → IsWithin plan new → new.frames ≡ old.frames
        → new.regions ≡ put_range range None old.regions
        → ((page : PageView) → in_range range page ≡ true → IfSome (old.regions page) (λ (was : Region). was.range ≡ range))
        → is_some (state_in old.regions range) ≡ true → Tells plan old (note.Gone range ∷ []) new }
{}
