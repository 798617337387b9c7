//! What an entry has been asked since the last epoch, and what is to become of it.

/// What a policy knows of an entry: the logarithm of its block's pages, 0 to 9, and how many pages were
/// given up or lowered for others since the last epoch.
#[derive(Clone, Copy, Debug, PartialEq, Eq)]
pub struct Load {
    pub log: u8,
    pub hits: u32,
}

/// What a policy says of an entry: its block is to be split, it stays as it is, or it may be merged with
/// its neighbour where that is cold too.
#[derive(Clone, Copy, Debug, PartialEq, Eq)]
pub enum Verdict {
    Split,
    Keep,
    Cold,
}
