//! What befalls a frame of a wire.

ghost use Rattle.std.specs.Prelude.{◌≡◌};
ghost use Rattle.schedule_text.specs.declared.sizes.Sizes.{Sizes};
ghost use Rattle.schedule_text.specs.Event.{IsLinkIn, IsEventIn};
ghost use Rattle.schedule_text.specs.Fate.{befalls as befalls_of};

use mind_base::{Event, LinkName, Side};

/// What befalls a frame of a wire: it arrives, it is lost, or it arrives and stays on the wire as well.
#[derive(Clone, Copy, Debug, PartialEq, Eq)]
pub enum Fate {
    Deliver,
    Lose,
    Repeat,
}

/// The event in which this befalls the frame with this number on a wire.
pub fn befalls(fate: Fate, link: LinkName, side: Side, k: u32) -> Event
    ensures event { result ≡ befalls_of fate link side k }
    ensures fits { (sizes : Sizes) → IsLinkIn sizes link → IsEventIn sizes result }
{
    match fate {
        Fate::Deliver => Event::Deliver { link, side, k },
        Fate::Lose => Event::Lose { link, side, k },
        Fate::Repeat => Event::Repeat { link, side, k },
    }
}
