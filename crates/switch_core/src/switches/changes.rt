//! The things that may be done for a request.

ghost use Rattle.std.specs.Prelude.{◌≡◌, ◌≢◌, ◌<◌, ◌^◌, ◌++◌, [], length, slice_get, Some, None, Err, true, false, OnOk, OnErr};
ghost use Rattle.mind_base.specs.declared.failures.Stop.TheVariants.{Spent};
ghost use Rattle.mind_base.specs.declared.notes.State.TheVariants.{M};
ghost use Rattle.invalidate_multicast.specs.Blades.{without_blade};
ghost use Rattle.region_directory.specs.Entry.{MeetsNone};
ghost use Rattle.switch_core.specs.Invariant.{IsFitState, IsSpent, IsSwitch};
ghost use Rattle.switch_core.specs.Sending.{Begins};
ghost use Rattle.switch_core.specs.Treating.{with_invalidations, with_transition, cleared, denied_request, dropped, entered, granted, holders, invalidated, left_to, lowered};

use super::SwitchCore;
use crate::messages::{Out, note_change, read_from, tell, tell_all};
use crate::states::{granted_state, holders, left_to};
use invalidate_multicast::{begin, without};
use mind_base::{LinkKind, Log, NoMemory, Note, Page, Range, State, Stop};
use region_directory::{Busy, Entry};
use request_list::Request;
use wire_msg::Msg;

impl SwitchCore {
    /// A request is denied, and ends.
    pub(super) fn deny(&mut self, r: &Request, out: &mut Out) -> Result<(), NoMemory>
        ensures switch { OnOk result (self.new ≡ (denied_request r.now self.old).switch) }
        ensures sent { OnOk result (out.new.items ≡ out.old.items ++ (denied_request r.now self.old).sent) }
        ensures was { OnOk result (IsSwitch self.old) }
        ensures unchanged { OnErr result (self.new ≡ self.old) }
        ensures out { Begins out.old.items out.new.items }
    {
        tell(out, LinkKind::Down, r.blade, Msg::Deny { page: r.page })?;
        let _ended = self.requests.done(r.blade, r.page);
        Ok(())
    }

    /// The request at this place is granted by the entry with this index.
    pub(super) fn grant(
        &mut self,
        r: &Request,
        at: u32,
        i: u32,
        entry: &Entry,
        out: &mut Out,
        log: &mut Log,
    ) -> Result<(), NoMemory>
        requires blade { r.now.blade < length self.old.plan.frames }
        requires place { slice_get self.old.requests at ≡ Some r.now }
        requires waits { r.now.fetching ≡ false }
        requires entry { slice_get self.old.directory.entries i ≡ Some entry.now }
        ensures switch { OnOk result (self.new ≡ (granted r.now at i entry.now self.old).switch) }
        ensures sent { OnOk result (out.new.items ≡ out.old.items ++ (granted r.now at i entry.now self.old).sent) }
        ensures noted { OnOk result (log.new.notes ≡ log.old.notes ++ (granted r.now at i entry.now self.old).noted) }
        ensures was { OnOk result (IsSwitch self.old) }
        ensures unchanged { OnErr result (self.new ≡ self.old) }
        ensures out { Begins out.old.items out.new.items }
        ensures log { Begins log.old.notes log.new.notes }
    {
        let place = self.table.place(r.page);
        let state = granted_state(r.write, r.blade, entry.state);
        read_from(out, r, place)?;
        note_change(log, &entry.range, entry.state, state)?;
        self.requests.start(at)?;
        self.directory.set_state(i, state);
        Ok(())
    }

    /// A transition of the entry with this index begins.
    fn begin(&mut self, i: u32, entry: &Entry, busy: &Busy)
        requires entry { slice_get self.old.directory.entries i ≡ Some entry.now }
        requires idle { entry.now.busy ≡ None }
        requires waits { busy.now.waiting ≢ 0 }
        requires target { IsFitState (length self.old.plan.frames) busy.now.target }
        ensures { self.new ≡ (with_transition i busy.now [] self.old).switch }
    {
        begin(&mut self.directory, i, *busy);
        self.last = busy.number;
    }

    /// Each blade of the set is told to give up what it holds of the entry's block, for the page that is
    /// asked for or to make room, and a transition begins that leads to the target.
    fn send_invalidations(
        &mut self,
        i: u32,
        entry: &Entry,
        asked: Option<Page>,
        blades: u8,
        target: State,
        out: &mut Out,
    ) -> Result<(), Stop>
        requires entry { slice_get self.old.directory.entries i ≡ Some entry.now }
        requires idle { entry.now.busy ≡ None }
        requires waits { blades ≢ 0 }
        requires target { IsFitState (length self.old.plan.frames) target }
        ensures switch { OnOk result (self.new ≡ (with_invalidations i entry.now.range asked blades target self.old).switch) }
        ensures sent { OnOk result (out.new.items ≡ out.old.items ++ (with_invalidations i entry.now.range asked blades target self.old).sent) }
        ensures was { OnOk result (IsSwitch self.old) }
        ensures unchanged { OnErr result (self.new ≡ self.old) }
        ensures out { Begins out.old.items out.new.items }
        ensures spent { result ≡ Err Spent → IsSpent self.new }
    {
        let number = self.next_number()?;
        tell_all(self.alloc, out, number, &entry.range, &asked, blades)?;
        let busy = Busy {
            number,
            waiting: blades,
            target,
            for_room: asked.is_none(),
        };
        self.begin(i, entry, &busy);
        Ok(())
    }

    /// All holders of the entry with this index are told to give up what they hold of the block, to
    /// make room.
    pub(super) fn clear(&mut self, i: u32, entry: &Entry, out: &mut Out) -> Result<(), Stop>
        requires entry { slice_get self.old.directory.entries i ≡ Some entry.now }
        requires idle { entry.now.busy ≡ None }
        requires held { holders entry.now.state ≢ 0 }
        ensures switch { OnOk result (self.new ≡ (cleared i entry.now self.old).switch) }
        ensures sent { OnOk result (out.new.items ≡ out.old.items ++ (cleared i entry.now self.old).sent) }
        ensures was { OnOk result (IsSwitch self.old) }
        ensures unchanged { OnErr result (self.new ≡ self.old) }
        ensures out { Begins out.old.items out.new.items }
        ensures spent { result ≡ Err Spent → IsSpent self.new }
    {
        let blades = self.holders_in(i, entry);
        self.send_invalidations(i, entry, None, blades, State::I, out)
    }

    /// The blades that the state of the entry with this index names.
    fn holders_in(&self, i: u32, entry: &Entry) -> u8
        requires { slice_get self.now.directory.entries i ≡ Some entry.now }
        ensures holders { result ≡ holders entry.now.state }
        ensures fits { result < 2 ^ length self.now.plan.frames }
        ensures switch { IsSwitch self.now }
    {
        let _last = self.last;
        holders(entry.state)
    }

    /// For a write all other holders are told to give up what they hold of the block.
    pub(super) fn invalidate(
        &mut self,
        r: &Request,
        i: u32,
        entry: &Entry,
        out: &mut Out,
    ) -> Result<(), Stop>
        requires blade { r.now.blade < length self.old.plan.frames }
        requires entry { slice_get self.old.directory.entries i ≡ Some entry.now }
        requires idle { entry.now.busy ≡ None }
        requires others { without_blade (holders entry.now.state) r.now.blade ≢ 0 }
        ensures switch { OnOk result (self.new ≡ (invalidated r.now i entry.now self.old).switch) }
        ensures sent { OnOk result (out.new.items ≡ out.old.items ++ (invalidated r.now i entry.now self.old).sent) }
        ensures was { OnOk result (IsSwitch self.old) }
        ensures unchanged { OnErr result (self.new ≡ self.old) }
        ensures out { Begins out.old.items out.new.items }
        ensures spent { result ≡ Err Spent → IsSpent self.new }
    {
        let blades = without(self.holders_in(i, entry), r.blade);
        let target = self.left_in(r, entry);
        self.send_invalidations(i, entry, Some(r.page), blades, target, out)
    }

    /// What the write of a blade leaves of the state of an entry.
    fn left_in(&self, r: &Request, entry: &Entry) -> State
        requires { r.now.blade < length self.now.plan.frames }
        ensures left { result ≡ left_to r.now.blade entry.now.state }
        ensures fits { IsFitState (length self.now.plan.frames) result }
    {
        let _last = self.last;
        left_to(r.blade, entry.state)
    }

    /// For a read the owner is told that it may write no longer.
    pub(super) fn lower(
        &mut self,
        r: &Request,
        owner: u8,
        i: u32,
        entry: &Entry,
        out: &mut Out,
    ) -> Result<(), Stop>
        requires entry { slice_get self.old.directory.entries i ≡ Some entry.now }
        requires owner { entry.now.state ≡ M owner }
        requires idle { entry.now.busy ≡ None }
        ensures switch { OnOk result (self.new ≡ (lowered r.now owner i entry.now self.old).switch) }
        ensures sent { OnOk result (out.new.items ≡ out.old.items ++ (lowered r.now owner i entry.now self.old).sent) }
        ensures was { OnOk result (IsSwitch self.old) }
        ensures unchanged { OnErr result (self.new ≡ self.old) }
        ensures out { Begins out.old.items out.new.items }
        ensures spent { result ≡ Err Spent → IsSpent self.new }
    {
        let number = self.next_number()?;
        let waiting = self.holders_in(i, entry);
        let msg = Msg::Lower {
            number,
            range: entry.range,
            asked: r.page,
        };
        tell(out, LinkKind::Down, owner, msg)?;
        let busy = Busy {
            number,
            waiting,
            target: State::S { sharers: waiting },
            for_room: false,
        };
        self.begin(i, entry, &busy);
        Ok(())
    }

    /// An entry for a block is put in its place.
    pub(super) fn enter(&mut self, range: &Range, log: &mut Log) -> Result<(), NoMemory>
        requires space { length self.old.directory.entries < self.old.directory.slots }
        requires free { MeetsNone self.old.directory.entries range.now }
        ensures switch { OnOk result (self.new ≡ (entered range.now self.old).switch) }
        ensures noted { OnOk result (log.new.notes ≡ log.old.notes ++ (entered range.now self.old).noted) }
        ensures was { OnOk result (IsSwitch self.old) }
        ensures unchanged { OnErr result (self.new ≡ self.old) }
        ensures log { Begins log.old.notes log.new.notes }
    {
        log.add(Note::Region {
            range: *range,
            state: State::I,
        })?;
        self.directory.insert(*range);
        Ok(())
    }

    /// The entry with this index is dropped.
    pub(super) fn remove_entry(
        &mut self,
        i: u32,
        entry: &Entry,
        log: &mut Log,
    ) -> Result<(), NoMemory>
        requires entry { slice_get self.old.directory.entries i ≡ Some entry.now }
        ensures switch { OnOk result (self.new ≡ (dropped i entry.now self.old).switch) }
        ensures noted { OnOk result (log.new.notes ≡ log.old.notes ++ (dropped i entry.now self.old).noted) }
        ensures was { OnOk result (IsSwitch self.old) }
        ensures unchanged { OnErr result (self.new ≡ self.old) }
        ensures log { Begins log.old.notes log.new.notes }
    {
        log.add(Note::Gone { range: entry.range })?;
        self.directory.remove(i);
        Ok(())
    }
}
