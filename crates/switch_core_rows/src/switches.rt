//! A switch of two compute blades, and what it does with a message. Pages 1 and 2 of domain 0 are mapped, the
//! first to be written, the second to be read; an entry has two pages.

ghost use Rattle.std.specs.Prelude.{OnOk};
ghost use Rattle.wire_msg.specs.WellFormed.{FieldsAgree};

use mind_base::{LinkKind, LinkName, Log, Note, Stop};
use sample_racks::plan_in;
use std::alloc::Global;
use std::test::Fail;
use switch_core::SwitchCore;
use wire_msg::Msg;

const RACK: &str =
    "format = 1\nslots = 4\nprotect = 8\noutliers = 2\nregion = 1\nmost = 9\nthreshold = 0\nblade = [{ frames = 2 }, { frames = 2 }]\nmemory = [{ spare = 0, homes = [{ domain = 0, page = 16, pages = 4 }] }, { spare = 0, homes = [{ domain = 0, page = 0, pages = 16 }] }]\nimage = [{ name = \"a.bin\", at = 0 }]\nthread = [{ blade = 0, domain = 0, image = 0, queue = 2 }]\nmap = [{ domain = 0, page = 1, pages = 1, perm = \"rw\" }, { domain = 0, page = 2, pages = 1, perm = \"r\" }]\n";

/// What a switch sends and notes.
#[derive(Drop)]
pub struct Deeds {
    pub out: Vec<(LinkName, Msg)>,
    pub log: Log,
}

impl Deeds {
    /// Whether these notes, and no others, are made.
    pub fn notes(&self, wanted: &[Note]) -> bool {
        if self.log.len() != wanted.len() {
            return false;
        }
        for (i, note) in wanted.iter().enumerate() {
            if i >= self.log.len() || self.log.get(i) != *note {
                return false;
            }
        }
        true
    }
}

/// A new switch of the rack.
pub fn new_switch(alloc: Global) -> Result<SwitchCore, Fail> {
    let plan = plan_in(alloc, RACK)?;
    Ok(SwitchCore::new(alloc, &plan)?)
}

/// What the switch does with a message on that link; None of one that may not come there.
pub fn received(
    alloc: Global,
    switch: &mut SwitchCore,
    link: LinkName,
    msg: Msg,
) -> Result<Option<Deeds>, Stop>
    requires { FieldsAgree msg }
{
    if !switch.may_come(&link, &msg) {
        return Ok(None);
    }
    let mut out = Vec::new(alloc);
    let mut log = Log::new(alloc);
    switch.receive(link, msg, &mut out, &mut log)?;
    Ok(Some(Deeds { out, log }))
}

/// The link that a blade's messages come on.
pub fn up(blade: u8) -> LinkName {
    LinkName {
        kind: LinkKind::Up,
        number: blade,
    }
}
