//! Where a pass over the requests stands.

ghost use Rattle.std.specs.Prelude.{◌≡◌, ◌+◌, ◌<◌, true};

/// Where a pass over the requests stands: the place of the request that comes next, whether room is
/// waited for, and whether the pass has changed anything.
#[derive(Clone, Copy, Debug, PartialEq, Eq)]
pub struct Stand {
    pub at: u32,
    pub blocked: bool,
    pub changed: bool,
}

impl Stand {
    /// Something was changed.
    pub fn change(&mut self)
        ensures { self.new ≡ record self.old { changed = true } }
    {
        self.changed = true;
    }

    /// The next request stands behind this one.
    pub fn pass_by(&mut self)
        requires { self.old.at < 4294967295 }
        ensures { self.new ≡ record self.old { at = self.old.at + 1 } }
    {
        self.at += 1;
    }

    /// The request waits for room, and so do all later ones that need it.
    pub fn block(&mut self)
        requires { self.old.at < 4294967295 }
        ensures { self.new ≡ record self.old { at = self.old.at + 1; blocked = true } }
    {
        self.blocked = true;
        self.at += 1;
    }
}
