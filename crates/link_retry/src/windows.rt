//! A window of selective repeat: a number, and which of the 64 numbers behind it are in it.

ghost use Rattle.std.specs.Prelude.{◌≡◌, ℕ, ◌<◌, ◌≤◌, ◌&&◌, nat_lt, true};
ghost use Rattle.link_retry.specs.Window.{has, new_window, Keeps, Passes, Joins};

/// A number, and which of the 64 numbers behind it are in it.
#[derive(Clone, Copy, Debug)]
pub struct Window {
    /// The number that the window stands at.
    pub base: u32,
    /// Bit j, from the lowest, says that `base + 1 + j` is in it.
    pub mask: u64,
}

impl Window {
    /// The window of nothing, from 0 on.
    pub(crate) fn new() -> Window
        ensures { result ≡ new_window }
    {
        Window { base: 0, mask: 0 }
    }

    /// Whether a number is in the window.
    pub(crate) fn has(self, number: u32) -> bool
        ensures { result ≡ has self number }
    {
        if number <= self.base || number - self.base > 64 {
            return false;
        }
        self.mask >> (number - self.base - 1) & 1 == 1
    }

    /// Puts a number into the window where it passes the window's by 1 to 64.
    pub(crate) fn keep(&mut self, number: u32)
        ensures { Keeps self.old number self.new }
    {
        if number <= self.base || number - self.base > 64 {
            return;
        }
        self.mask |= 1 << (number - self.base - 1);
    }

    /// The window when it passed the number that it stands at, and all in it that follow without a gap.
    pub(crate) fn pass(self) -> Window
        requires base { self.base < 4294967295 }
        requires numbers { (n : ℕ) → has self n ≡ true → n < 4294967295 }
        ensures { Passes self result }
    {
        let base = self.base + 1 + self.mask.trailing_ones();
        Window {
            base,
            mask: self.behind(base),
        }
    }

    /// Moves the window to the later of two numbers, with what either had behind it.
    pub(crate) fn join(&mut self, other: Window)
        ensures { Joins self.old other self.new }
    {
        let base = self.base.max(other.base);
        self.mask = self.behind(base) | other.behind(base);
        self.base = base;
    }

    /// The mask of what the window has behind a number that is not before its own.
    fn behind(self, base: u32) -> u64
        requires { self.base ≤ base }
        ensures { (n : ℕ) → has (record { base = base; mask = result }) n ≡ (nat_lt base n && has self n) }
    {
        let past = base - self.base;
        if past > 63 {
            return 0;
        }
        self.mask >> past
    }
}
