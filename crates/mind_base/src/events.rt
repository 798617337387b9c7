//! The events of a schedule.

use crate::{Command, LinkName, Page, Side};

/// One event of a schedule. `k` names a frame of a wire, modulo the wire's length.
#[derive(Clone, Copy, Debug, PartialEq, Eq)]
pub enum Event {
    Step { hart: u8 },
    Drain { hart: u8 },
    Evict { blade: u8, page: Page },
    Deliver { link: LinkName, side: Side, k: u32 },
    Lose { link: LinkName, side: Side, k: u32 },
    Repeat { link: LinkName, side: Side, k: u32 },
    Resend { link: LinkName },
    Epoch,
    Ask { command: Command },
    Settle,
}
