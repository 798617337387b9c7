//! Sets of links by their places.

ghost use Rattle.std.specs.Prelude.{◌≡◌};
ghost use Rattle.rack_net.specs.LinkSets.{no_links, PutsIn, FindsInSet};

/// Which of the first 64 links are in it: bit k is of the link at place k.
#[derive(Clone, Copy, Debug)]
pub struct LinkSet {
    pub bits: u64,
}

impl LinkSet {
    /// The set of no link.
    pub(crate) fn none() -> LinkSet
        ensures { result ≡ no_links }
    {
        LinkSet { bits: 0 }
    }

    /// Puts a place into the set, or takes it out. One from 64 on changes nothing.
    pub(crate) fn put(&mut self, place: usize, is_in: bool)
        ensures { PutsIn self.old place is_in self.new }
    {
        if place >= 64 {
            return;
        }
        let bit = 1 << place;
        if is_in {
            self.bits |= bit;
        } else {
            self.bits &= !bit;
        }
    }

    /// The first place of the set. None where it is empty.
    pub(crate) fn first(self) -> Option<usize>
        ensures { FindsInSet self result }
    {
        if self.bits == 0 {
            return None;
        }
        Some(self.bits.trailing_zeros() as usize)
    }
}
