//! What the switch sends and notes.

ghost use Rattle.std.specs.Prelude.{◌≡◌, ◌<◌, [], ◌∷◌, ◌++◌, OnOk, OnErr};
ghost use Rattle.switch_core.specs.Handling.{writing};
ghost use Rattle.switch_core.specs.Sending.{Begins};
ghost use Rattle.switch_core.specs.Switch.{on_link};
ghost use Rattle.switch_core.specs.Treating.{invalidations, noted_change, reading};

use crate::states::same_state;
use invalidate_multicast::targets;
use mind_base::{LinkKind, LinkName, Log, NoMemory, Note, Page, Range, State};
use page_image::PageImage;
use request_list::Request;
use std::alloc::Global;
use wire_msg::Msg;

/// The messages that go out, each with its link.
pub(crate) type Out = Vec<(LinkName, Msg)>;

/// Puts a message for the link of this kind and number at the end.
pub fn tell(out: &mut Out, kind: LinkKind, number: u8, msg: Msg) -> Result<(), NoMemory>
    ensures ok { OnOk result (out.new.items ≡ out.old.items ++ on_link kind number msg ∷ []) }
    ensures err { OnErr result (out.new.items ≡ out.old.items) }
{
    out.push((LinkName { kind, number }, msg))?;
    Ok(())
}

/// Tells each blade of the set, by rising number, to give up the pages of a block.
pub fn tell_all(
    alloc: Global,
    out: &mut Out,
    number: u32,
    range: &Range,
    asked: &Option<Page>,
    blades: u8,
) -> Result<(), NoMemory>
    ensures ok { OnOk result (out.new.items ≡ out.old.items ++ invalidations number range.now asked.now blades) }
    ensures begins { Begins out.old.items out.new.items }
{
    let casts = targets(alloc, blades)?;
    for cast in &casts {
        let msg = Msg::Inv {
            number,
            range: *range,
            asked: *asked,
        };
        tell(out, LinkKind::Down, cast.blade, msg)?;
    }
    Ok(())
}

/// Asks the memory blade where the page lies for it.
pub fn read_from(out: &mut Out, r: &Request, place: Option<(u8, u32)>) -> Result<(), NoMemory>
    ensures ok { OnOk result (out.new.items ≡ out.old.items ++ reading r.now place) }
    ensures err { OnErr result (out.new.items ≡ out.old.items) }
{
    let Some((memory, phys)) = place else {
        return Ok(());
    };
    let msg = Msg::Read {
        phys,
        blade: Some(r.blade),
        page: r.page,
    };
    tell(out, LinkKind::To, memory, msg)
}

/// Sends the memory blade where the page lies its image.
pub fn write_to(out: &mut Out, place: Option<(u8, u32)>, image: PageImage) -> Result<(), NoMemory>
    ensures ok { OnOk result (out.new.items ≡ out.old.items ++ writing place image) }
    ensures err { OnErr result (out.new.items ≡ out.old.items) }
{
    let Some((memory, phys)) = place else {
        return Ok(());
    };
    tell(out, LinkKind::To, memory, Msg::Write { phys, image })
}

/// Notes the state of a block, where it has changed.
pub fn note_change(log: &mut Log, range: &Range, old: State, new: State) -> Result<(), NoMemory>
    ensures ok { OnOk result (log.new.notes ≡ log.old.notes ++ noted_change range.now old new) }
    ensures err { OnErr result (log.new.notes ≡ log.old.notes) }
{
    if same_state(old, new) {
        return Ok(());
    }
    log.add(Note::Region {
        range: *range,
        state: new,
    })?;
    Ok(())
}
