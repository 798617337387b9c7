//! Reads and judges a rack, its images and a schedule, in this order.

ghost use Rattle.std.specs.Prelude.{◌≡◌, ◌≤◌, ◌<◌, [], length, Err, IfOk, OnErr};
ghost use Rattle.std.specs.List.{AllByRecursion, list_all};
ghost use Rattle.mind_base.specs.Fit.{IsFit, FitsImage, FitImages};
ghost use Rattle.schedule_text.specs.Event.{IsEventOf};
ghost use Rattle.rack_gen.specs.Generator.{generated};
ghost use Rattle.mind_inputs.specs.declared.stopped.Stopped.TheVariants as stopped;
ghost use Rattle.mind_inputs.specs.Inputs.{Judges, JudgesMade, JudgesOne, JudgesImages, JudgesParts, Bytes, rack_seen_judged, image_seen_judged, schedule_judged, is_built, IsBuilt, IsRunnable};
ghost use Rattle.mind_inputs.specs.Judged.{GivesEnding};
ghost use Rattle.mind_inputs.specs.Loading.{Brings, stopped_of};

use crate::{Loaded, Refusal, Stopped};
use mind_base::{Event, Image, ImagePlan, NoMemory, RackPlan, ReadError, Sequence, Store};
use rack_file::{ImageFault, RackRefusal, image_of, rack_of};
use rack_gen::generated;
use schedule_text::{LineRefusal, schedule_of};
use std::alloc::Global;

/// The greatest length of a rack file, in bytes.
const RACK_BYTES: u64 = 65536;

/// The greatest length of an image, in bytes.
pub(crate) const IMAGE_BYTES: u64 = 65536;

/// The greatest length of a schedule, in bytes.
const SCHEDULE_BYTES: u64 = 4194304;

/// What a failed read makes of the run; `long` refuses an input with too many bytes.
pub(crate) fn stopped_by(error: ReadError, long: Refusal) -> Stopped
    ensures { result ≡ stopped_of error long }
{
    match error {
        ReadError::Failed => Stopped::ReadFault,
        ReadError::TooLong { .. } => Stopped::Refused { refusal: long },
        ReadError::NoMemory => Stopped::NoMemory,
    }
}

/// The answer where an input is refused.
pub(crate) fn refused<T>(refusal: Refusal) -> Result<T, Stopped>
    ensures { result ≡ Err (stopped.Refused refusal) }
{
    Err(Stopped::Refused { refusal })
}

// ---- one input, of its bytes

fn plan_from(alloc: Global, bytes: &[u8]) -> Result<RackPlan, Stopped>
    ensures judged { GivesEnding result (rack_seen_judged (Bytes bytes.now)) }
    ensures fit { IfOk result (λ plan. IsFit plan) }
{
    match rack_of(alloc, bytes) {
        Ok(plan) => Ok(plan),
        Err(RackRefusal::Refused { what, path }) => refused(Refusal::RackRefused { what, path }),
        Err(RackRefusal::NoMemory) => Err(Stopped::NoMemory),
    }
}

fn image_from(number: u8, plan: &ImagePlan, bytes: Vec<u8>) -> Result<Image, Stopped>
    ensures judged { GivesEnding result (image_seen_judged number plan.now (Bytes bytes.items)) }
    ensures fits { IfOk result (λ image. FitsImage plan.now image) }
{
    match image_of(plan, bytes) {
        Ok(image) => Ok(image),
        Err(ImageFault::Length) => refused(Refusal::ImageLength { number }),
        Err(ImageFault::End) => refused(Refusal::ImageEnd { number }),
    }
}

fn is_built_kind(event: Event) -> bool
    ensures { result ≡ is_built event }
{
    match event {
        Event::Step { .. }
        | Event::Drain { .. }
        | Event::Evict { .. }
        | Event::Deliver { .. }
        | Event::Lose { .. }
        | Event::Repeat { .. }
        | Event::Resend { .. }
        | Event::Epoch
        | Event::Settle => true,
        Event::Ask { .. } => false,
    }
}

fn all_built(events: &[Event]) -> bool
    ensures { result ≡ list_all is_built events.now }
{
    events.iter().all(|event| is_built_kind(*event))
}

fn events_from(alloc: Global, bytes: &[u8], plan: &RackPlan) -> Result<Sequence<Event>, Stopped>
    requires fit { IsFit plan.now }
    requires short { length bytes.now ≤ 4194304 }
    ensures judged { GivesEnding result (schedule_judged plan.now (Bytes bytes.now)) }
    ensures few { IfOk result (λ events. length events ≤ 1000000) }
    ensures built { IfOk result (λ events. AllByRecursion IsBuilt events) }
    ensures numbers { IfOk result (λ events. AllByRecursion (IsEventOf plan.now) events) }
{
    match schedule_of(alloc, bytes, plan) {
        Ok(events) => if all_built(events.as_slice()) {
            Ok(Sequence::from_vec(events))
        } else {
            refused(Refusal::ScheduleEarly)
        },
        Err(LineRefusal::Refused { line, what }) => {
            refused(Refusal::ScheduleRefused { line, what })
        }
        Err(LineRefusal::NoMemory) => Err(Stopped::NoMemory),
    }
}

// ---- reading and judging

/// Reads and judges the rack of this name.
pub fn load_rack<S: Store>(alloc: Global, store: &mut S, name: &str) -> Result<RackPlan, Stopped>
    ensures keeps { S.holds store.new ≡ S.holds store.old }
    ensures faults { S.faults store.old ≤ S.faults store.new }
    ensures missed { S.missed store.old ≤ S.missed store.new }
    ensures brings { Brings (S.holds store.old) (JudgesOne (S.holds store.old) name.now 65536 rack_seen_judged)
        (S.faults store.old) (S.faults store.new) (S.missed store.old) (S.missed store.new) result }
    ensures fit { IfOk result (λ plan. IsFit plan) }
{
    match store.read_all(alloc, name, RACK_BYTES) {
        Ok(bytes) => plan_from(alloc, bytes.as_slice()),
        Err(error) => Err(stopped_by(error, Refusal::RackLong)),
    }
}

fn read_image<S: Store>(
    alloc: Global,
    store: &mut S,
    number: u8,
    plan: &ImagePlan,
) -> Result<Image, Stopped>
    ensures keeps { S.holds store.new ≡ S.holds store.old }
    ensures faults { S.faults store.old ≤ S.faults store.new }
    ensures missed { S.missed store.old ≤ S.missed store.new }
    ensures brings { Brings (S.holds store.old) (JudgesOne (S.holds store.old) plan.now.name 65536 (image_seen_judged number plan.now))
        (S.faults store.old) (S.faults store.new) (S.missed store.old) (S.missed store.new) result }
    ensures fits { IfOk result (λ image. FitsImage plan.now image) }
{
    match store.read_all(alloc, plan.name.as_str(), IMAGE_BYTES) {
        Ok(bytes) => image_from(number, plan, bytes),
        Err(error) => Err(stopped_by(error, Refusal::ImageLong { number })),
    }
}

fn number_of(count: usize) -> u8
    requires { count < 256 }
    ensures { result ≡ count }
{
    count as u8
}

/// Reads and judges the images of these plans, one after another.
fn read_images<S: Store>(
    alloc: Global,
    store: &mut S,
    plans: &[ImagePlan],
) -> Result<Sequence<Image>, Stopped>
    requires { length plans.now ≤ 16 }
    ensures keeps { S.holds store.new ≡ S.holds store.old }
    ensures faults { S.faults store.old ≤ S.faults store.new }
    ensures missed { S.missed store.old ≤ S.missed store.new }
    ensures brings { Brings (S.holds store.old) (JudgesImages (S.holds store.old) [] plans.now)
        (S.faults store.old) (S.faults store.new) (S.missed store.old) (S.missed store.new) result }
    ensures fit { IfOk result (λ images. FitImages plans.now images) }
{
    let mut images = Sequence::new(alloc);
    let mut left = plans;
    while let [plan, rest @ ..] = left {
        match read_image(alloc, store, number_of(images.len()), plan) {
            Ok(image) => match images.push(image) {
                Ok(()) => {}
                Err(_) => return Err(Stopped::NoMemory),
            },
            Err(stopped) => return Err(stopped),
        }
        left = rest;
    }
    Ok(images)
}

/// Reads and judges the rack of this name, then its images in their order.
fn load_parts<S: Store>(
    alloc: Global,
    store: &mut S,
    rack: &str,
) -> Result<(RackPlan, Sequence<Image>), Stopped>
    ensures keeps { S.holds store.new ≡ S.holds store.old }
    ensures faults { S.faults store.old ≤ S.faults store.new }
    ensures missed { S.missed store.old ≤ S.missed store.new }
    ensures brings { Brings (S.holds store.old) (JudgesParts (S.holds store.old) rack.now)
        (S.faults store.old) (S.faults store.new) (S.missed store.old) (S.missed store.new) result }
    ensures fit { IfOk result (λ parts. IsFit parts.0) }
    ensures images { IfOk result (λ parts. FitImages parts.0.images parts.1) }
{
    let plan = match load_rack(alloc, store, rack) {
        Ok(plan) => plan,
        Err(stopped) => return Err(stopped),
    };
    let images = match read_images(alloc, store, plan.images.as_slice()) {
        Ok(images) => images,
        Err(stopped) => return Err(stopped),
    };
    Ok((plan, images))
}

fn read_schedule<S: Store>(
    alloc: Global,
    store: &mut S,
    name: &str,
    plan: &RackPlan,
) -> Result<Sequence<Event>, Stopped>
    requires { IsFit plan.now }
    ensures keeps { S.holds store.new ≡ S.holds store.old }
    ensures faults { S.faults store.old ≤ S.faults store.new }
    ensures missed { S.missed store.old ≤ S.missed store.new }
    ensures brings { Brings (S.holds store.old) (JudgesOne (S.holds store.old) name.now 4194304 (schedule_judged plan.now))
        (S.faults store.old) (S.faults store.new) (S.missed store.old) (S.missed store.new) result }
    ensures few { IfOk result (λ events. length events ≤ 1000000) }
    ensures built { IfOk result (λ events. AllByRecursion IsBuilt events) }
    ensures numbers { IfOk result (λ events. AllByRecursion (IsEventOf plan.now) events) }
{
    match store.read_all(alloc, name, SCHEDULE_BYTES) {
        Ok(bytes) => events_from(alloc, bytes.as_slice(), plan),
        Err(error) => Err(stopped_by(error, Refusal::ScheduleLong)),
    }
}

/// The inputs of a rack with its images, and of events.
fn loaded_of(parts: (RackPlan, Sequence<Image>), events: Sequence<Event>) -> Loaded
    ensures { result ≡ record { plan = parts.0; images = parts.1; events = events } }
{
    Loaded {
        plan: parts.0,
        images: parts.1,
        events,
    }
}

/// Reads and judges the rack of this name, then its images in their order, then the schedule. The
/// first that is not held or is refused decides, and nothing is read behind it.
pub fn load<S: Store>(
    alloc: Global,
    store: &mut S,
    rack: &str,
    schedule: &str,
) -> Result<Loaded, Stopped>
    // The store holds what it held, and its counts never fall.
    ensures keeps { S.holds store.new ≡ S.holds store.old }
    ensures faults { S.faults store.old ≤ S.faults store.new }
    ensures missed { S.missed store.old ≤ S.missed store.new }

    // The inputs are accepted or refused exactly as they are judged.
    ensures loads { Brings (S.holds store.old) (Judges (S.holds store.old) (record { rack = rack.now; schedule = schedule.now }))
        (S.faults store.old) (S.faults store.new) (S.missed store.old) (S.missed store.new) result }

    // What is accepted: a fit rack, its images, and events of that rack, of kinds that are built.
    ensures runnable { IfOk result (λ loaded. IsRunnable loaded) }
{
    let parts = load_parts(alloc, store, rack)?;
    let events = read_schedule(alloc, store, schedule, &parts.0)?;
    Ok(loaded_of(parts, events))
}

/// The generator's events for a rack, `count` drawn and a last settling.
fn events_made(
    alloc: Global,
    plan: &RackPlan,
    count: u32,
    seed: u32,
) -> Result<Sequence<Event>, Stopped>
    requires fit { IsFit plan.now }
    requires count { count ≤ 200000 }
    ensures made { IfOk result (λ events. events ≡ generated plan.now count seed) }
    ensures want { OnErr result (result ≡ Err stopped.NoMemory) }
    ensures few { IfOk result (λ events. length events ≤ 1000000) }
    ensures built { IfOk result (λ events. AllByRecursion IsBuilt events) }
    ensures numbers { IfOk result (λ events. AllByRecursion (IsEventOf plan.now) events) }
{
    match generated(alloc, plan, count, seed) {
        Ok(events) => Ok(Sequence::from_vec(events)),
        Err(NoMemory) => Err(Stopped::NoMemory),
    }
}

/// Reads and judges the rack of this name, then its images in their order. The events are those that
/// the generator makes for the rack. The first that is not held or is refused decides, and nothing is
/// read behind it.
pub fn load_made<S: Store>(
    alloc: Global,
    store: &mut S,
    rack: &str,
    count: u32,
    seed: u32,
) -> Result<Loaded, Stopped>
    requires { count ≤ 200000 }

    // The store holds what it held, and its counts never fall.
    ensures keeps { S.holds store.new ≡ S.holds store.old }
    ensures faults { S.faults store.old ≤ S.faults store.new }
    ensures missed { S.missed store.old ≤ S.missed store.new }

    // The inputs are accepted or refused exactly as they are judged.
    ensures loads { Brings (S.holds store.old) (JudgesMade (S.holds store.old) rack.now count seed)
        (S.faults store.old) (S.faults store.new) (S.missed store.old) (S.missed store.new) result }

    // What is accepted: a fit rack, its images, and events of that rack, of kinds that are built.
    ensures runnable { IfOk result (λ loaded. IsRunnable loaded) }
{
    let parts = load_parts(alloc, store, rack)?;
    let events = events_made(alloc, &parts.0, count, seed)?;
    Ok(loaded_of(parts, events))
}
