//! The names of links and of their two wires.

/// From a blade up to the switch, down from it to a blade, to a memory blade, or from one.
#[derive(Clone, Copy, Debug, PartialEq, Eq)]
pub enum LinkKind {
    Up,
    Down,
    To,
    From,
}

/// One link of the rack: its kind, and the number of the compute or memory blade at its other end.
#[derive(Clone, Copy, Debug, PartialEq, Eq)]
pub struct LinkName {
    pub kind: LinkKind,
    pub number: u8,
}

/// Which of a link's two wires: that of its messages or that of their acknowledgements.
#[derive(Clone, Copy, Debug, PartialEq, Eq)]
pub enum Side {
    Messages,
    Acks,
}
