//! A hart of a blade: its core, its store queue, its reservation and what it waits for.

ghost use Rattle.std.specs.Prelude.{◌≡◌, ◌≢◌, ◌<◌, ◌≤◌, ◌∷◌, ◌++◌, [], false, length, slice_get, drop, IfOk, OnOk, OnErr, Err, IfSome, option_map};
ghost use Rattle.hart_effect.specs.Deed.{Alone, Storing, carried_out, drains_first as drains_first_of};
ghost use Rattle.hart_effect.specs.Core.{core_continued};
ghost use Rattle.hart_effect.specs.Thread.{with_core};
ghost use Rattle.hart_effect.specs.Work.{core_changed, deed_of, deed_with, WorkFitsFound};
ghost use Rattle.hart_effect.specs.declared.finds.Found.TheVariants as found_of;
ghost use Rattle.mind_base.specs.declared.failures.Stop.TheVariants.{Spent};
ghost use Rattle.compute_blade.specs.Blade.{IsLike, last_store};
ghost use Rattle.compute_blade.specs.Frames.{around_held, thread_of};
ghost use Rattle.compute_blade.specs.Harts.{first_hart, hart_changed, holding, IsDoing, IsMover, DoesAs, DoesSome, TakesEffect};
ghost use Rattle.compute_blade.specs.Steps.{frames_after, used_by, kept_now as kept_now_of, kept_by as kept_by_of, kept_unless_denied, need_in as need_in_found};

use crate::frames::{Sight, tag_of};
use crate::kept::{Denial, Doing, HartChange, Mover, Need};
use crate::needs::need_in;
use crate::{Reservation, Waits};
use hart_core::{Act, LockedKind, Regs};
use hart_effect::{AccessEffect, Change, Continued, Core, Found, Here, Work, drains_first};
use mind_base::{End, NoMemory, Pending, Place, Stop};
use page_cache::PageCache;
use std::alloc::Global;
use std::marker::Model;
use store_queue::StoreQueue;

/// The number of a hart's last store that has a tag, of 64 bits.
const LAST_STORE: u64 = (1 << 58) - 1;

/// A hart of the blade: its registers, where it stands and the bytes that it put out; its store queue, its
/// reservation, how many of its stores took effect, and whether its step and its drain wait for a page.
#[derive(Drop)]
pub struct Hart {
    core: Core,
    queue: StoreQueue,
    reserved: Option<Reservation>,
    stores: u64,
    stepping: bool,
    draining: bool,
}

impl Model for Hart {
    ghost use Rattle.std.specs.Prelude.{◌≤◌};
    ghost use Rattle.compute_blade.specs.Blade.{HartView, last_store};

    ghost Value = { HartView };

    ghost view = { λ h. record { regs = h.core.regs; end = h.core.end; output = h.core.output; queue = h.queue; reserved = h.reserved; stores = h.stores; stepping = h.stepping; draining = h.draining } };

    ghost invariant = { λ h. h.stores ≤ last_store };
}

impl Hart {
    /// A hart that runs at `pc`, with a queue of so many places, 1 to 64.
    pub fn new(alloc: Global, pc: u32, places: u32) -> Result<Hart, NoMemory>
        requires some { 0 < places }
        requires most { places ≤ 64 }
        ensures { IfOk result (λ hart. hart ≡ first_hart pc places) }
    {
        let queue = StoreQueue::new(alloc, places)?;
        Ok(Hart {
            core: Core::new(alloc, pc),
            queue,
            reserved: None,
            stores: 0,
            stepping: false,
            draining: false,
        })
    }

    pub fn end(&self) -> End
        ensures { result ≡ self.now.end }
    {
        self.core.end()
    }

    pub fn regs(&self) -> &Regs
        ensures { result.now ≡ self.now.regs }
    {
        self.core.regs()
    }

    pub fn is_stepping(&self) -> bool
        ensures { result ≡ self.now.stepping }
    {
        self.stepping
    }

    pub fn is_draining(&self) -> bool
        ensures { result ≡ self.now.draining }
    {
        self.draining
    }

    /// The oldest store of the queue.
    pub fn oldest(&self) -> Option<Pending>
        ensures { result ≡ slice_get self.now.queue.stores 0 }
    {
        self.queue.front()
    }

    /// Something befalls the hart.
    pub fn change_by(&mut self, change: HartChange)
        ensures done { self.new ≡ hart_changed change self.old }
        ensures like { IsLike self.old self.new }
    {
        match change {
            HartChange::Waits { waits } => match waits {
                Waits::Step => self.stepping = true,
                Waits::Drain => self.draining = true,
            },
            HartChange::Wakes { waits } => match waits {
                Waits::Step => self.stepping = false,
                Waits::Drain => self.draining = false,
            },
            HartChange::Faults { denial, pc } => {
                let Denial {
                    kind,
                    address: value,
                } = denial;
                let Ok(()) = self.core.apply(Change::Faults { kind, value, pc }) else {
                    unreachable!();
                };
            }
        }
    }

    /// Whether the oldest store must drain before the hart does what it found.
    pub fn drains_first(&self, found: Found) -> bool
        ensures { result ≡ drains_first_of found self.now.queue.stores self.now.queue.capacity }
    {
        let waiting = self.queue.len() as usize;
        drains_first(found, waiting, self.queue.capacity() as usize)
    }

    /// The hart does what it found at its pc.
    pub fn perform(&mut self, doing: Doing, cache: &mut PageCache) -> Result<(), Stop>
        requires doing { IsDoing doing }
        requires ready { drains_first_of doing.found self.old.queue.stores self.old.queue.capacity ≡ false }
        ensures ok { OnOk result (DoesSome doing.mover.hart doing.mover.plan.domain doing.found self.old cache.old self.new cache.new
            (carried_out doing.found (around_held cache.old.entries doing.mover.hart doing.mover.plan.domain) doing.pc (thread_of cache.old.entries self.old))) }
        ensures spent { result ≡ Err Spent → self.old.stores ≡ last_store }
        ensures err { OnErr result ((self.new ≡ self.old) × (cache.new ≡ cache.old)) }
        ensures like { IsLike self.old self.new }
        ensures frames { cache.new.frames ≡ cache.old.frames }
    {
        let Some(work) = self.work(doing, cache) else {
            unreachable!();
        };
        match work {
            Work::Alone { change } => self.change(change, doing, cache)?,
            Work::Accesses { effect, next } => self.access(effect, next, doing, cache)?,
        }
        Ok(())
    }

    /// What the hart is to do.
    fn work(&self, doing: Doing, cache: &PageCache) -> Option<Work>
        requires doing { IsDoing doing }
        ensures deed { option_map (λ work. deed_of work (thread_of cache.now.entries self.now)) result
            ≡ carried_out doing.found (around_held cache.now.entries doing.mover.hart doing.mover.plan.domain) doing.pc (thread_of cache.now.entries self.now) }
        ensures fits { IfSome result (WorkFitsFound doing.found doing.mover.plan.domain) }
    {
        let sight = Sight {
            queue: &self.queue,
            cache,
            reserved: self.reserved,
        };
        let Doing { mover, found, pc } = doing;
        let here = Here {
            hart: mover.hart,
            domain: mover.plan.domain,
            pc,
        };
        Work::of(found, here, &self.core, &sight)
    }

    /// The core alone changes. Where the hart runs on, the page that was needed is used.
    fn change(
        &mut self,
        change: Change,
        doing: Doing,
        cache: &mut PageCache,
    ) -> Result<(), NoMemory>
        requires doing { IsDoing doing }
        ensures ok { OnOk result (DoesAs doing self.old cache.old self.new cache.new (Alone (with_core (core_changed change) (thread_of cache.old.entries self.old)))) }
        ensures err { OnErr result ((self.new ≡ self.old) × (cache.new ≡ cache.old)) }
        ensures like { IsLike self.old self.new }
    {
        let kept = kept_now(doing.found, doing.mover.plan.domain, cache, self.reserved);
        self.core.apply(change)?;
        self.settle(kept, doing, cache);
        Ok(())
    }

    /// An access is done: beside its effect the core goes on.
    fn access(
        &mut self,
        effect: AccessEffect,
        next: Continued,
        doing: Doing,
        cache: &mut PageCache,
    ) -> Result<(), Stop>
        requires doing { IsDoing doing }
        requires ready { drains_first_of doing.found self.old.queue.stores self.old.queue.capacity ≡ false }
        requires fits { WorkFitsFound doing.found doing.mover.plan.domain (Work.Accesses effect next) }
        ensures ok { OnOk result (DoesAs doing self.old cache.old self.new cache.new (deed_with effect (with_core (core_continued next)) (thread_of cache.old.entries self.old))) }
        ensures spent { OnErr result (self.old.stores ≡ last_store) }
        ensures err { OnErr result ((self.new ≡ self.old) × (cache.new ≡ cache.old)) }
        ensures like { IsLike self.old self.new }
    {
        match effect {
            AccessEffect::Buffers { store } => {
                self.buffer(store);
                self.go_on(next, doing, cache);
                Ok(())
            }
            AccessEffect::Reserves { .. } => {
                self.go_on(next, doing, cache);
                Ok(())
            }
            AccessEffect::GivesUp => {
                self.go_on(next, doing, cache);
                Ok(())
            }
            AccessEffect::Stores { store } => self.exchange(store, next, doing, cache),
        }
    }

    fn buffer(&mut self, store: Pending)
        requires { length self.old.queue.stores ≢ self.old.queue.capacity }
        ensures buffered { self.new ≡ record self.old { queue = record self.old.queue { stores = self.old.queue.stores ++ store ∷ [] } } }
        ensures like { IsLike self.old self.new }
    {
        let Ok(()) = self.queue.push(store) else {
            unreachable!();
        };
    }

    /// The core goes on, and the page that was needed is used.
    fn go_on(&mut self, next: Continued, doing: Doing, cache: &mut PageCache)
        requires doing { IsDoing doing }
        ensures done { DoesAs doing self.old cache.old self.new cache.new (Alone (with_core (core_continued next) (thread_of cache.old.entries self.old))) }
        ensures like { IsLike self.old self.new }
    {
        let kept = kept_now(doing.found, doing.mover.plan.domain, cache, self.reserved);
        self.core.go_on(next);
        self.settle(kept, doing, cache);
    }

    /// Where the hart runs on, it keeps this reservation, and the page that was needed is used.
    fn settle(&mut self, kept: Option<Reservation>, doing: Doing, cache: &mut PageCache)
        requires doing { IsDoing doing }
        ensures hart { self.new ≡ record self.old { reserved = kept_unless_denied self.old.end kept self.old.reserved } }
        ensures cache { cache.new ≡ holding cache.old (frames_after (need_in_found doing.found doing.mover.plan.domain) self.old.end cache.old.entries) }
        ensures like { IsLike self.old self.new }
    {
        match self.core.end() {
            End::Running { .. } => {
                self.reserved = kept;
                touch(need_in(doing.found, doing.mover.plan.domain), cache);
            }
            End::Exit { .. } | End::Fault { .. } => {}
        }
    }

    /// The core goes on, and the store takes effect in the same step.
    fn exchange(
        &mut self,
        store: Pending,
        next: Continued,
        doing: Doing,
        cache: &mut PageCache,
    ) -> Result<(), Stop>
        requires doing { IsDoing doing }
        ensures ok { OnOk result (DoesAs doing self.old cache.old self.new cache.new (Storing (with_core (core_continued next) (thread_of cache.old.entries self.old)) store)) }
        ensures spent { OnErr result (self.old.stores ≡ last_store) }
        ensures err { OnErr result ((self.new ≡ self.old) × (cache.new ≡ cache.old)) }
        ensures like { IsLike self.old self.new }
    {
        let kept = kept_now(doing.found, doing.mover.plan.domain, cache, self.reserved);
        self.take_effect(store, doing.mover, cache)?;
        self.core.go_on(next);
        self.reserved = kept;
        Ok(())
    }

    /// A store of the hart takes effect in the frame of its page.
    fn take_effect(
        &mut self,
        store: Pending,
        mover: Mover,
        cache: &mut PageCache,
    ) -> Result<(), Stop>
        requires mover { IsMover mover }
        ensures ok { OnOk result (TakesEffect mover.hart mover.plan.domain store self.old cache.old self.new cache.new) }
        ensures spent { OnErr result (self.old.stores ≡ last_store) }
        ensures err { OnErr result ((self.new ≡ self.old) × (cache.new ≡ cache.old)) }
        ensures like { IsLike self.old self.new }
    {
        if self.stores >= LAST_STORE {
            return Err(Stop::Spent);
        }
        let tag = (self.stores + 1) * 64 + u64::from(mover.hart);
        let place = Place::of(mover.plan.domain, store.address);
        cache.write(place.page(), place.offset(), store.size, store.value, tag);
        self.stores += 1;
        Ok(())
    }

    /// The oldest store leaves the queue, if there is one, and takes effect.
    pub fn drain(&mut self, mover: Mover, cache: &mut PageCache) -> Result<(), Stop>
        requires mover { IsMover mover }
        ensures ok { OnOk result (IfSome (slice_get self.old.queue.stores 0) (λ oldest.
            TakesEffect mover.hart mover.plan.domain oldest (record self.old { queue = record self.old.queue { stores = drop 1 self.old.queue.stores } }) cache.old self.new cache.new)) }
        ensures frames { cache.new.frames ≡ cache.old.frames }
        ensures spent { OnErr result (self.old.stores ≡ last_store) }
        ensures err { OnErr result ((self.new ≡ self.old) × (cache.new ≡ cache.old)) }
        ensures like { IsLike self.old self.new }
    {
        let Some(oldest) = self.queue.front() else {
            return Ok(());
        };
        self.take_effect(oldest, mover, cache)?;
        self.queue.pop();
        Ok(())
    }
}

/// The page that was needed, if one was, is the most recently used.
fn touch(need: Option<Need>, cache: &mut PageCache)
    ensures { cache.new ≡ holding cache.old (used_by need cache.old.entries) }
{
    if let Some(need) = need {
        cache.touch(need.page);
    }
}

/// What the hart has reserved after a locked operation that was not denied: LR keeps the granule with its
/// tag, SC keeps nothing, AMO leaves the reservation.
fn kept_by(
    kind: LockedKind,
    tag: Option<u64>,
    place: Place,
    kept: Option<Reservation>,
) -> Option<Reservation>
    ensures { result ≡ kept_by_of kind tag place.domain place.address kept }
{
    match kind {
        LockedKind::Lr => match tag {
            None => kept,
            Some(tag) => Some(Reservation {
                granule: place.granule(),
                tag,
            }),
        },
        LockedKind::Sc => None,
        LockedKind::Amo { .. } => kept,
    }
}

fn kept_for(
    asked: Act,
    domain: u8,
    cache: &PageCache,
    kept: Option<Reservation>,
) -> Option<Reservation>
    requires { domain < 16 }
    ensures { result ≡ kept_now_of (found_of.Asks asked) domain cache.now.entries kept }
{
    match asked {
        Act::Locked { kind, address, .. } => {
            let place = Place::of(domain, address);
            kept_by(kind, tag_of(cache, place.granule()), place, kept)
        }
        _ => kept,
    }
}

/// What the hart has reserved once it did what it found, unless that was denied.
fn kept_now(
    found: Found,
    domain: u8,
    cache: &PageCache,
    kept: Option<Reservation>,
) -> Option<Reservation>
    requires { domain < 16 }
    ensures { result ≡ kept_now_of found domain cache.now.entries kept }
{
    match found {
        Found::Outside => kept,
        Found::Unknown { .. } => kept,
        Found::Asks { asked } => kept_for(asked, domain, cache, kept),
    }
}
