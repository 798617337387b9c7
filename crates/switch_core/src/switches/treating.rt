//! What is done for one request.

ghost use Rattle.std.specs.Prelude.{◌≡◌, ◌<◌, length, slice_get, Some, None, Err, true, false, ◌++◌, OnOk, OnErr};
ghost use Rattle.mind_base.specs.Range.{InRange};
ghost use Rattle.mind_base.specs.declared.failures.Stop.TheVariants.{Spent};
ghost use Rattle.region_directory.specs.Entry.{HasPage, NoneHas};
ghost use Rattle.switch_core.specs.Invariant.{IsSpent, IsSwitch};
ghost use Rattle.switch_core.specs.Sending.{Begins, KeepsStart, start_at};
ghost use Rattle.switch_core.specs.Standing.{IsTreatable, PassGoesOn};
ghost use Rattle.switch_core.specs.Treating.{at_entry, changed_for, enters, grants, is_fetched, treated, with_idle, with_room, without_entry};
ghost use Rattle.region_directory.specs.Room.{room_of};
ghost use Rattle.request_list.specs.Requests.{fetched_pages};

use super::SwitchCore;
use crate::messages::Out;
use crate::states::grants;
use crate::visits::Visit;
use mind_base::{Log, Range, State, Stop};
use region_directory::{Entry, Room, has_any};
use request_list::Request;

impl SwitchCore {
    /// Whether a page of the block is being fetched.
    fn is_fetched(&self, range: &Range) -> bool
        ensures { result ≡ is_fetched range.now self.now.requests }
    {
        has_any(range, self.requests.fetching_pages())
    }

    /// A transition begins for the request, which the state of the entry does not let be granted.
    fn change_for(&mut self, r: &Request, i: u32, entry: &Entry, out: &mut Out) -> Result<(), Stop>
        requires blade { r.now.blade < length self.old.plan.frames }
        requires entry { slice_get self.old.directory.entries i ≡ Some entry.now }
        requires idle { entry.now.busy ≡ None }
        requires more { grants r.now.write r.now.blade entry.now.state ≡ false }
        ensures switch { OnOk result (self.new ≡ (changed_for r.now entry.now.state i entry.now self.old).switch) }
        ensures sent { OnOk result (out.new.items ≡ out.old.items ++ (changed_for r.now entry.now.state i entry.now self.old).sent) }
        ensures was { OnOk result (IsSwitch self.old) }
        ensures unchanged { OnErr result (self.new ≡ self.old) }
        ensures out { Begins out.old.items out.new.items }
        ensures spent { result ≡ Err Spent → IsSpent self.new }
    {
        match entry.state {
            State::I => unreachable!(),
            State::S { .. } => self.invalidate(r, i, entry, out),
            State::M { owner } => {
                if r.write {
                    self.invalidate(r, i, entry, out)
                } else {
                    self.lower(r, owner, i, entry, out)
                }
            }
        }
    }

    /// The request has an entry for its page, which is idle.
    fn treat_idle(
        &mut self,
        visit: &mut Visit,
        i: u32,
        entry: &Entry,
        out: &mut Out,
        log: &mut Log,
    ) -> Result<(), Stop>
        requires treatable { IsTreatable self.old visit.old.stand visit.old.request }
        requires entry { slice_get self.old.directory.entries i ≡ Some entry.now }
        requires has { InRange entry.now.range visit.old.request.page }
        requires idle { entry.now.busy ≡ None }
        ensures goes_on { OnOk result (PassGoesOn (with_idle visit.old.request i entry.now) self.old visit.old.stand out.old.items log.old.notes self.new visit.new.stand out.new.items log.new.notes) }
        ensures keeps { KeepsStart (start_at self.old out.old.items log.old.notes) self.new out.new.items log.new.notes }
        ensures spent { result ≡ Err Spent → IsSpent self.new }
    {
        let r = visit.request;
        if grants(r.write, r.blade, entry.state) {
            self.grant(&r, visit.stand.at, i, entry, out, log)?;
            visit.stand.change();
            visit.stand.pass_by();
            return Ok(());
        }
        if self.is_fetched(&entry.range) {
            visit.stand.pass_by();
            return Ok(());
        }
        self.change_for(&r, i, entry, out)?;
        visit.stand.change();
        visit.stand.pass_by();
        Ok(())
    }

    /// The entry with this index has the page of the request.
    fn treat_found(
        &mut self,
        visit: &mut Visit,
        i: u32,
        out: &mut Out,
        log: &mut Log,
    ) -> Result<(), Stop>
        requires treatable { IsTreatable self.old visit.old.stand visit.old.request }
        requires has { HasPage self.old.directory.entries i visit.old.request.page }
        ensures goes_on { OnOk result (PassGoesOn (at_entry visit.old.request i) self.old visit.old.stand out.old.items log.old.notes self.new visit.new.stand out.new.items log.new.notes) }
        ensures keeps { KeepsStart (start_at self.old out.old.items log.old.notes) self.new out.new.items log.new.notes }
        ensures spent { result ≡ Err Spent → IsSpent self.new }
    {
        let entry = self.directory.entry(i);
        if entry.busy.is_some() {
            visit.stand.pass_by();
            return Ok(());
        }
        self.treat_idle(visit, i, &entry, out, log)
    }

    /// The request's page has no entry, and gets one.
    fn treat_new(&mut self, visit: &mut Visit, out: &mut Out, log: &mut Log) -> Result<(), Stop>
        requires treatable { IsTreatable self.old visit.old.stand visit.old.request }
        requires none { NoneHas self.old.directory.entries visit.old.request.page }
        requires space { length self.old.directory.entries < self.old.directory.slots }
        ensures goes_on { OnOk result (PassGoesOn (enters visit.old.request) self.old visit.old.stand out.old.items log.old.notes self.new visit.new.stand out.new.items log.new.notes) }
        ensures keeps { KeepsStart (start_at self.old out.old.items log.old.notes) self.new out.new.items log.new.notes }
        ensures spent { result ≡ Err Spent → IsSpent self.new }
    {
        let r = visit.request;
        let range = self.directory.new_range(r.page, self.plan.region);
        let place = self.directory.place(&range);
        self.enter(&range, log)?;
        let entry = Entry {
            range,
            state: State::I,
            busy: None,
            hits: 0,
        };
        self.grant(&r, visit.stand.at, place, &entry, out, log)?;
        visit.stand.change();
        visit.stand.pass_by();
        Ok(())
    }

    /// The request's page has no entry, and all slots have one.
    fn make_room(&mut self, visit: &mut Visit, out: &mut Out, log: &mut Log) -> Result<(), Stop>
        requires treatable { IsTreatable self.old visit.old.stand visit.old.request }
        requires none { NoneHas self.old.directory.entries visit.old.request.page }
        requires full { length self.old.directory.entries ≡ self.old.directory.slots }
        ensures goes_on { OnOk result (PassGoesOn (with_room visit.old.request (room_of self.old.directory (fetched_pages self.old.requests))) self.old visit.old.stand out.old.items log.old.notes self.new visit.new.stand out.new.items log.new.notes) }
        ensures keeps { KeepsStart (start_at self.old out.old.items log.old.notes) self.new out.new.items log.new.notes }
        ensures spent { result ≡ Err Spent → IsSpent self.new }
    {
        match self.directory.room(self.requests.fetching_pages()) {
            Room::Drop { index } => {
                let entry = self.directory.entry(index);
                self.remove_entry(index, &entry, log)?;
                visit.stand.change();
                self.treat_new(visit, out, log)
            }
            Room::Evict { index } => {
                let entry = self.directory.entry(index);
                self.clear(index, &entry, out)?;
                visit.stand.change();
                visit.stand.block();
                Ok(())
            }
            Room::Merge { .. } | Room::Wait => {
                visit.stand.block();
                Ok(())
            }
        }
    }

    /// No entry has the page of the request.
    fn treat_missing(&mut self, visit: &mut Visit, out: &mut Out, log: &mut Log) -> Result<(), Stop>
        requires treatable { IsTreatable self.old visit.old.stand visit.old.request }
        requires none { NoneHas self.old.directory.entries visit.old.request.page }
        ensures goes_on { OnOk result (PassGoesOn (without_entry visit.old.request) self.old visit.old.stand out.old.items log.old.notes self.new visit.new.stand out.new.items log.new.notes) }
        ensures keeps { KeepsStart (start_at self.old out.old.items log.old.notes) self.new out.new.items log.new.notes }
        ensures spent { result ≡ Err Spent → IsSpent self.new }
    {
        if visit.stand.blocked {
            visit.stand.pass_by();
            return Ok(());
        }
        if self.directory.is_full() {
            return self.make_room(visit, out, log);
        }
        self.treat_new(visit, out, log)
    }

    /// The request at the stand's place is denied or granted, or a transition begins for it, or it
    /// waits.
    pub(super) fn treat(
        &mut self,
        visit: &mut Visit,
        out: &mut Out,
        log: &mut Log,
    ) -> Result<(), Stop>
        requires at { visit.old.stand.at < 4294967295 }
        requires place { slice_get self.old.requests visit.old.stand.at ≡ Some visit.old.request }
        ensures goes_on { OnOk result (PassGoesOn (treated visit.old.request) self.old visit.old.stand out.old.items log.old.notes self.new visit.new.stand out.new.items log.new.notes) }
        ensures keeps { KeepsStart (start_at self.old out.old.items log.old.notes) self.new out.new.items log.new.notes }
        ensures spent { result ≡ Err Spent → IsSpent self.new }
    {
        let r = visit.request;
        if r.fetching {
            visit.stand.pass_by();
            return Ok(());
        }
        if !self.protect.perm(r.page).allows(r.write) {
            self.deny(&r, out)?;
            visit.stand.change();
            return Ok(());
        }
        match self.directory.find(r.page) {
            Some(i) => self.treat_found(visit, i, out, log),
            None => self.treat_missing(visit, out, log),
        }
    }
}
