//! The machine: threads over one flat memory, step by step.

ghost use Rattle.std.specs.Prelude.{◌≡◌, ◌<◌, ◌≤◌, length, map, IfOk, IfSome, IsSomeAnd, OnErr, slice_get, Some, option_map, option_and_then};
ghost use Rattle.control_plane.specs.Outcome.{IsChange};
ghost use Rattle.mind_base.specs.Fit.{IsFit, FitImages};
ghost use Rattle.mind_base.specs.Plan.{image_place};
ghost use Rattle.hart_effect.specs.Thread.{first_thread};
ghost use Rattle.tso_machine.specs.State.{State, start_state};
ghost use Rattle.hart_effect.specs.Deed.{executed, drain_deed};
ghost use Rattle.tso_machine.specs.Done.{EndsReservations};
ghost use Rattle.tso_machine.specs.Commands.{after_command, outcome_at};
ghost use Rattle.tso_machine.specs.Step.{threads_off, after_exec, after_drain};
ghost use Rattle.tso_machine.specs.Scheduled.{step_label, drain_label};
ghost use Rattle.tso_machine.specs.Laws.{KeepsTotalStoreOrder};
ghost use Rattle.tso_machine.specs.Replay.{labels};
ghost use Rattle.tso_machine.specs.Machine.{MachineView, StandsFor, StepLeads, StepLeadsTo, CarriesOut, around_at, Replays, StandsInside};

use crate::changes::{carry_out, end_reservations_by, is_held_up};
use crate::command_queues::CommandQueue;
use crate::deeds::Done;
use crate::harts::Hart;
use crate::{Label, Replay, label_in};
use control_plane::decide;
use flat_memory::FlatMemory;
use mind_base::{
    Command, End, Granule, Image, Log, NoMemory, Outcome, Place, RackPlan, Sequence, copies_of,
    image_place,
};
use protect_table::Protect;
use std::alloc::Global;
use std::marker::Model;

/// The abstract machine of a rack: its threads over one flat memory for each domain. It keeps copies
/// of the plan, the images and the commands that it was made from.
#[derive(Drop)]
pub struct Machine {
    plan: RackPlan,
    images: Sequence<Image>,
    commands: CommandQueue,
    harts: Vec<Hart>,
    memory: FlatMemory,
    perms: Protect,
}

impl Model for Machine {
    ghost use Rattle.std.specs.Prelude.{◌≡◌, length};
    ghost use Rattle.std.specs.Coded.{codes};
    ghost use Rattle.mind_base.specs.Fit.{IsFit};
    ghost use Rattle.protect_table.specs.Protect.{protect_code};
    ghost use Rattle.tso_machine.specs.Machine.{MachineView};

    ghost Value = { MachineView };

    ghost coded = { Prim.hlevel (codes, protect_code) };

    ghost view = { λ m. record { setup = record { plan = m.plan; images = m.images; commands = m.commands.commands }; threads = m.harts.items; memory = m.memory; perms = m.perms; taken = m.commands.taken } };

    ghost invariant = { λ m. IsFit m.plan × (m.perms.slots ≡ m.plan.protect) × (length m.harts.items ≡ length m.plan.threads) };
}

impl Machine {
    /// The machine at the start: each thread at its image with all registers 0, nothing written and
    /// the maps of the plan.
    pub fn start(
        alloc: Global,
        plan: &RackPlan,
        images: &[Image],
        commands: &[Command],
    ) -> Result<Machine, NoMemory>
        requires fit { IsFit plan.now }
        requires images { FitImages plan.now.images images.now }
        requires commands { length commands.now ≤ 1000000 }
        ensures setup { IfOk result (λ machine. machine.setup ≡ record { plan = plan.now; images = images.now; commands = commands.now }) }
        ensures start { IfOk result (λ machine. StandsFor machine (start_state machine.setup)) }
    {
        let harts = start_harts(alloc, plan)?;
        let memory = FlatMemory::new(alloc)?;
        let perms = Protect::of(alloc, plan.protect, plan.maps.as_slice())?;
        let plan = plan.copy(alloc)?;
        let images = copies_of(alloc, images)?;
        let commands = CommandQueue::new(alloc, commands)?;
        Ok(Machine {
            plan,
            images,
            commands,
            harts,
            memory,
            perms,
        })
    }

    /// Takes one label: true where it was enabled and took effect, false, with nothing changed, where it
    /// was not.
    pub fn step(&mut self, label: Label) -> Result<bool, NoMemory>
        ensures ok { IfOk result (λ enabled. StepLeads enabled label self.old self.new) }
        ensures setup { self.new.setup ≡ self.old.setup }
        ensures err { OnErr result (self.new ≡ self.old) }
    {
        match label {
            Label::Exec { hart } => self.execute(hart),
            Label::Drain { hart } => self.drain(hart),
            Label::Command { index } => self.take_command(index),
        }
    }

    fn execute(&mut self, hart: u8) -> Result<bool, NoMemory>
        ensures ok { IfOk result (λ done. (state : State) → StandsFor self.old state → StepLeadsTo done self.old self.new (after_exec self.old.setup state hart)) }
        ensures setup { self.new.setup ≡ self.old.setup }
        ensures err { OnErr result (self.new ≡ self.old) }
    {
        let Some(thread) = self.plan.threads.as_slice().get(usize::from(hart)) else {
            return Ok(false);
        };
        let Some(image) = self.images.as_slice().get(usize::from(thread.image)) else {
            return Ok(false);
        };
        let done = execute_among(
            &mut self.harts,
            &mut self.memory,
            &self.perms,
            image,
            thread.domain,
            hart,
        )?;
        Ok(done)
    }

    fn drain(&mut self, hart: u8) -> Result<bool, NoMemory>
        ensures ok { IfOk result (λ done. (state : State) → StandsFor self.old state → StepLeadsTo done self.old self.new (after_drain self.old.setup state hart)) }
        ensures setup { self.new.setup ≡ self.old.setup }
        ensures err { OnErr result (self.new ≡ self.old) }
    {
        let Some(thread) = self.plan.threads.as_slice().get(usize::from(hart)) else {
            return Ok(false);
        };
        let done = drain_among(&mut self.harts, &mut self.memory, thread.domain, hart)?;
        Ok(done)
    }

    /// Takes the command with this number, where it is next and no buffered store holds it up.
    fn take_command(&mut self, index: u32) -> Result<bool, NoMemory>
        ensures ok { IfOk result (λ done. (state : State) → StandsFor self.old state → StepLeadsTo done self.old self.new (after_command self.old.setup state index)) }
        ensures setup { self.new.setup ≡ self.old.setup }
        ensures err { OnErr result (self.new ≡ self.old) }
    {
        let Some(command) = self.commands.command_if_next(index) else {
            return Ok(false);
        };
        if is_held_up(&command, &self.plan, self.harts.as_slice()) {
            return Ok(false);
        }
        let outcome = decide(&command, self.plan.memories.as_slice(), &self.perms);
        carry_out(&command, outcome, &mut self.perms, &mut self.memory)?;
        end_reservations_by(&command, &mut self.harts);
        self.commands.take(index, outcome);
        Ok(true)
    }

    /// How the command with this number ended; None where it was not taken, or is a migrate.
    pub fn outcome(&self, index: u32) -> Option<Outcome>
        ensures taken { result ≡ outcome_at self.now.taken index }

        // What was taken is a map, an unmap or a protect of the setup.
        ensures change { IfSome result (λ _. IsSomeAnd (slice_get self.now.setup.commands index) IsChange) }
    {
        self.commands.outcome(index)
    }

    /// The label of a step of thread `hart` in a schedule: its drain where its oldest store must go first
    /// (a locked operation or an ordering fence with a store in the buffer, a store with a buffer as long
    /// as the thread's queue), else its execution; None where it has ended.
    pub fn step_label(&self, hart: u8) -> Option<Label>
        ensures { result ≡ step_label self.now.setup self.now.threads hart }
    {
        let thread = self.plan.threads.as_slice().get(usize::from(hart))?;
        let image = self.images.as_slice().get(usize::from(thread.image))?;
        let index = usize::from(hart);
        if index >= self.harts.len() {
            return None;
        }
        self.harts[index].step_label(image, thread.queue, hart)
    }

    /// The label of a drain of thread `hart` in a schedule; None where it buffers nothing.
    pub fn drain_label(&self, hart: u8) -> Option<Label>
        ensures { result ≡ drain_label self.now.threads hart }
    {
        let index = usize::from(hart);
        if index < self.harts.len() && self.harts[index].holds_stores() {
            Some(Label::Drain { hart })
        } else {
            None
        }
    }

    /// Takes the labels of a log, one after another, up to the first that is not enabled. After an error
    /// a front of them was taken.
    pub fn replay(&mut self, log: &Log) -> Result<Replay, NoMemory>
        ensures ok { IfOk result (λ answer. Replays answer (labels log.now.notes) self.old self.new) }

        // Whatever the labels are, the run keeps total store order, as far as they are enabled.
        ensures laws { (state : State) → StandsFor self.old state → KeepsTotalStoreOrder self.old.setup state (labels log.now.notes) }
        ensures setup { self.new.setup ≡ self.old.setup }
        ensures err { OnErr result (StandsInside (labels log.now.notes) self.old self.new) }
    {
        let mut taken: usize = 0;
        for i in 0..log.len() {
            match label_in(log.get(i)) {
                None => {}
                Some(label) => {
                    if !self.step(label)? {
                        return Ok(Replay::Stuck { label: taken });
                    }
                    taken += 1;
                }
            }
        }
        Ok(Replay::Whole)
    }

    /// How many threads the machine has: as many as its plan, which has at most 64.
    pub fn thread_count(&self) -> u8
        ensures threads { result ≡ length self.now.threads }
        ensures planned { result ≡ length self.now.setup.plan.threads }
        ensures few { result ≤ 64 }
    {
        self.harts.len() as u8
    }

    /// Where a thread of the plan stands.
    pub fn end(&self, hart: u8) -> End
        requires { hart < length self.now.setup.plan.threads }
        ensures { option_map (λ thread. thread.end) (slice_get self.now.threads hart) ≡ Some result }
    {
        self.harts[usize::from(hart)].end()
    }

    /// The bytes that a thread of the plan put out.
    pub fn output(&self, hart: u8) -> &[u8]
        requires { hart < length self.now.setup.plan.threads }
        ensures { option_map (λ thread. thread.output) (slice_get self.now.threads hart) ≡ Some result.now }
    {
        self.harts[usize::from(hart)].output()
    }
}

/// Lets thread number `hart`, of a domain, execute one instruction of its image.
#[tactic(auto, using(crate::proofs::Counting::length_one))]
fn execute_among(
    harts: &mut Vec<Hart>,
    memory: &mut FlatMemory,
    perms: &Protect,
    image: &Image,
    domain: u8,
    hart: u8,
) -> Result<bool, NoMemory>
    requires { domain < 16 }
    ensures ok { IfOk result (λ done. CarriesOut done hart domain harts.old.items memory.old harts.new.items memory.new
        (option_and_then (λ thread. executed image.now (around_at hart domain memory.old perms.now) thread) (slice_get harts.old.items hart))) }
    ensures count { length harts.new.items ≡ length harts.old.items }
    ensures err { OnErr result ((harts.new.items ≡ harts.old.items) × (memory.new ≡ memory.old)) }
{
    let index = usize::from(hart);
    if index >= harts.len() {
        return Ok(false);
    }
    let done = harts[index].execute(image, hart, domain, memory, perms)?;
    Ok(settle_deed(harts, done, domain))
}

/// Lets the oldest store of thread number `hart`, of a domain, take effect.
#[tactic(auto, using(crate::proofs::Counting::length_one))]
fn drain_among(
    harts: &mut Vec<Hart>,
    memory: &mut FlatMemory,
    domain: u8,
    hart: u8,
) -> Result<bool, NoMemory>
    requires { domain < 16 }
    ensures ok { IfOk result (λ done. CarriesOut done hart domain harts.old.items memory.old harts.new.items memory.new
        (option_and_then drain_deed (slice_get harts.old.items hart))) }
    ensures count { length harts.new.items ≡ length harts.old.items }
    ensures err { OnErr result ((harts.new.items ≡ harts.old.items) × (memory.new ≡ memory.old)) }
{
    let index = usize::from(hart);
    if index >= harts.len() {
        return Ok(false);
    }
    let done = harts[index].drain(domain, memory)?;
    Ok(settle_deed(harts, done, domain))
}

/// Ends the reservations on the granule of a store that took effect. False where nothing was done.
#[tactic(auto, using(crate::proofs::Counting::length_off))]
fn settle_deed(harts: &mut Vec<Hart>, done: Done, domain: u8) -> bool
    requires { domain < 16 }
    ensures settles { EndsReservations result domain done harts.old.items harts.new.items }
    ensures count { length harts.new.items ≡ length harts.old.items }
{
    match done {
        Done::Nothing => false,
        Done::Changed => true,
        Done::Stored { store } => {
            end_reservations(harts, Place::of(domain, store.address).granule());
            true
        }
    }
}

fn end_reservations(harts: &mut Vec<Hart>, granule: Granule)
    ensures { harts.new.items ≡ threads_off granule harts.old.items }
{
    for i in 0..harts.len() {
        harts[i].end_reservation(granule);
    }
}

#[tactic(auto, using(crate::proofs::Counting::length_first))]
fn start_harts(alloc: Global, plan: &RackPlan) -> Result<Vec<Hart>, NoMemory>
    ensures threads { IfOk result (λ harts. harts.items ≡ map (λ thread. first_thread (image_place plan.now.images thread.image)) plan.now.threads) }
    ensures count { IfOk result (λ harts. length harts.items ≡ length plan.now.threads) }
{
    let mut harts = Vec::new(alloc);
    let images = plan.images.as_slice();
    for thread in plan.threads.as_slice() {
        harts.push(Hart::new(alloc, image_place(images, thread.image)))?;
    }
    Ok(harts)
}
