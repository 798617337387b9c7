//! What a hart is let do by itself at its blade.

ghost use Rattle.rack_core.specs.HartActs.{HasActed, HartMayAct, hart_acted};

use compute_blade::ComputeBlade;
use mind_base::{Image, Log, Stop};
use wire_msg::Msg;

/// What a hart is let do: a step, or a drain of its oldest store.
#[derive(Clone, Copy)]
pub enum HartAct {
    Step,
    Drain,
}

/// Lets a hart of the blade act.
pub fn let_act(
    act: HartAct,
    hart: u8,
    blade: &mut ComputeBlade,
    images: &[Image],
    sent: &mut Vec<Msg>,
    log: &mut Log,
) -> Result<(), Stop>
    requires { HartMayAct hart images.now blade.old }
    ensures { HasActed (hart_acted act images.now hart blade.old) hart result blade.old blade.new sent.old.items sent.new.items log.old.notes log.new.notes }
{
    match act {
        HartAct::Step => blade.step(hart, images, sent, log),
        HartAct::Drain => blade.drain(hart, sent, log),
    }
}
