//! Inputs that were read and accepted.

use mind_base::{Event, Image, RackPlan, Sequence};
use std::marker::Model;

/// The accepted inputs of a run: the rack, one image for each of its image plans in order, and the
/// events of the schedule.
#[derive(Debug, Drop)]
pub struct Loaded {
    pub plan: RackPlan,
    pub images: Sequence<Image>,
    pub events: Sequence<Event>,
}

impl Model for Loaded {
    ghost use Rattle.mind_inputs.specs.Inputs.{Accepted};

    ghost Value = { Accepted };

    ghost view = { λ l. record { plan = l.plan; images = l.images; events = l.events } };
}
