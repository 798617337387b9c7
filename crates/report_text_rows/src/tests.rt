//! Whole reports, written by hand from the format.

ghost use Rattle.std.specs.Prelude.{◌≡◌, ◌<◌, ◌≤◌, length, IfOk};
ghost use Rattle.mind_base.specs.Fit.{IsFit};
ghost use Rattle.mind_base.specs.Range.{IsRange};

use mind_base::{Command, Log, NoMemory, Note, Outcome, Page, Perm, RackPlan, Range, Span, State};
use report_text::report;
use sample_racks::{images_in, plan_in};
use std::alloc::Global;
use std::test::Fail;
use tso_machine::{Label, Machine};

// Puts `A` and exits with 0: addi a0, zero, 65; addi a7, zero, 1; ecall; addi a0, zero, 0; addi a7, zero, 2; ecall.
static PUTS_A: [u8; 24] = [
    0x13, 0x05, 0x10, 0x04, 0x93, 0x08, 0x10, 0x00, 0x73, 0x00, 0x00, 0x00, 0x13, 0x05, 0x00, 0x00,
    0x93, 0x08, 0x20, 0x00, 0x73, 0x00, 0x00, 0x00,
];

// No instruction.
static NOTHING: [u8; 4] = [0, 0, 0, 0];

/// A blade, and three pages, of which none is mapped; three threads, the first two in one image.
const RACK: &str =
    "format = 1\nslots = 1\nprotect = 1\noutliers = 0\nregion = 0\nmost = 0\nthreshold = 0\nblade = [{ frames = 1 }]\nmemory = [{ spare = 0, homes = [{ domain = 0, page = 0, pages = 3 }] }]\nimage = [{ name = \"a.bin\", at = 0 }, { name = \"a.bin\", at = 4096 }]\nthread = [{ blade = 0, domain = 0, image = 0, queue = 1 }, { blade = 0, domain = 0, image = 0, queue = 1 }, { blade = 0, domain = 0, image = 1, queue = 1 }]\n";

fn machine_of(alloc: Global, plan: &RackPlan, commands: &[Command]) -> Result<Machine, Fail>
    requires fit { IsFit plan.now }
    requires few { length commands.now ≤ 1000000 }
    ensures plan { IfOk result (λ machine. machine.setup.plan ≡ plan.now) }
    ensures commands { IfOk result (λ machine. machine.setup.commands ≡ commands.now) }
{
    let images = images_in(alloc, plan.images.as_slice(), &[&PUTS_A, &NOTHING])?;
    let machine = Machine::start(alloc, plan, images.as_slice(), commands)?;
    Ok(machine)
}

fn run_thread(machine: &mut Machine, hart: u8, steps: u8) -> Result<(), NoMemory>
    ensures { machine.new.setup ≡ machine.old.setup }
{
    for i in 0..steps {
        machine.step(Label::Exec { hart })?;
    }
    Ok(())
}

fn take_commands(machine: &mut Machine, count: u32) -> Result<(), NoMemory>
    ensures { machine.new.setup ≡ machine.old.setup }
{
    for index in 0..count {
        machine.step(Label::Command { index })?;
    }
    Ok(())
}

/// The machine behind six steps of its first thread, three of the second and one of the third, and behind
/// its first six commands.
fn stopped_machine(alloc: Global, plan: &RackPlan, commands: &[Command]) -> Result<Machine, Fail>
    requires fit { IsFit plan.now }
    requires few { length commands.now ≤ 1000000 }
    ensures plan { IfOk result (λ machine. machine.setup.plan ≡ plan.now) }
    ensures commands { IfOk result (λ machine. machine.setup.commands ≡ commands.now) }
{
    let mut machine = machine_of(alloc, plan, commands)?;
    run_thread(&mut machine, 0, 6)?;
    run_thread(&mut machine, 1, 3)?;
    run_thread(&mut machine, 2, 1)?;
    take_commands(&mut machine, 6)?;
    Ok(machine)
}

fn moved(index: u32, outcome: Outcome) -> Note {
    Note::Moved { index, outcome }
}

fn short_log(alloc: Global) -> Result<Log, NoMemory> {
    let mut log = Log::new(alloc);
    log.add(Note::Event { index: 0 })?;
    log.add(Note::Exec { hart: 0 })?;
    log.add(moved(3, Outcome::Fine))?;
    log.add(moved(6, Outcome::Same))?;
    log.add(moved(7, Outcome::Room))?;
    log.add(moved(6, Outcome::Fine))?;
    Ok(log)
}

fn report_with(alloc: Global, commands: &[Command]) -> Result<Vec<u8>, Fail>
    requires { length commands.now ≤ 1000000 }
{
    let plan = plan_in(alloc, RACK)?;
    let machine = stopped_machine(alloc, &plan, commands)?;
    let log = short_log(alloc)?;
    let text = report(alloc, &plan, &machine, commands, &log)?;
    Ok(text)
}

#[test]
fn a_report_of_each_end(rt: HostRuntime) -> Result<(), Fail> {
    let text = report_with(rt.alloc(), &[])?;
    assert_eq!(rt;
        text.as_slice(),
        b"mind 1\nthread 0 exit 0 out 41\nthread 1 running 0000000c out 41\nthread 2 fault illegal 00000000 at 00001000 out -\ncounts events 1 labels 1 takes 0 gives 0 downs 0 peak 0 splits 0 merges 0\n".as_slice()
    );
    Ok(())
}

fn page_at(base: u32) -> Span
    requires { base < 1048576 }
{
    Span {
        domain: 0,
        base,
        pages: 1,
    }
}

fn map_at(base: u32) -> Command
    requires { base < 1048576 }
{
    Command::Map {
        span: page_at(base),
        perm: Perm::R,
    }
}

/// A block of 2^`log` pages.
fn block(base: u32, log: u8) -> Range
    requires { IsRange 0 base log }
{
    Range {
        domain: 0,
        base,
        log,
    }
}

fn move_to(memory: u8) -> Command {
    let range = block(0, 0);
    Command::Migrate { range, memory }
}

// Pages 0 to 2 have a home, none is mapped at first, and the switch has one slot for permissions.
#[test]
fn a_report_of_each_outcome(rt: HostRuntime) -> Result<(), Fail> {
    let commands = [
        Command::Unmap { span: page_at(0) },
        map_at(9),
        map_at(0),
        map_at(0),
        map_at(2),
        Command::Protect {
            span: page_at(0),
            perm: Perm::Rw,
        },
        move_to(0),
        move_to(1),
        move_to(2),
    ];
    let text = report_with(rt.alloc(), &commands)?;
    assert_eq!(rt;
        text.as_slice(),
        b"mind 1\nthread 0 exit 0 out 41\nthread 1 running 0000000c out 41\nthread 2 fault illegal 00000000 at 00001000 out -\ncommand 0 unmap unmapped\ncommand 1 map unplaced\ncommand 2 map ok\ncommand 3 map overlap\ncommand 4 map slots\ncommand 5 protect ok\ncommand 6 migrate same\ncommand 7 migrate room\ncommand 8 migrate waiting\ncounts events 1 labels 1 takes 0 gives 0 downs 0 peak 0 splits 0 merges 0\n".as_slice()
    );
    Ok(())
}

/// The report of these notes, on a machine that has done nothing.
fn report_of(alloc: Global, notes: &[Note]) -> Result<Vec<u8>, Fail> {
    let mut log = Log::new(alloc);
    for note in notes {
        log.add(*note)?;
    }
    let plan = plan_in(alloc, RACK)?;
    let machine = machine_of(alloc, &plan, &[])?;
    let text = report(alloc, &plan, &machine, &[], &log)?;
    Ok(text)
}

#[test]
fn each_note_once(rt: HostRuntime) -> Result<(), Fail> {
    let page = Page {
        domain: 0,
        number: 4,
    };
    let range = block(4, 1);
    let notes = [
        Note::Event { index: 0 },
        Note::Exec { hart: 0 },
        Note::Drain { hart: 1 },
        Note::Command { index: 0 },
        Note::Moved {
            index: 1,
            outcome: Outcome::Fine,
        },
        Note::Take {
            blade: 0,
            page,
            writable: true,
        },
        Note::Down { blade: 0, page },
        Note::Give { blade: 0, page },
        Note::Region {
            range,
            state: State::I,
        },
        Note::Split { range },
        Note::Merge { range },
        Note::Gone { range },
    ];
    assert_eq!(rt;
        report_of(rt.alloc(), &notes)?.as_slice(),
        b"mind 1\nthread 0 running 00000000 out -\nthread 1 running 00000000 out -\nthread 2 running 00001000 out -\ncounts events 1 labels 3 takes 1 gives 1 downs 1 peak 2 splits 1 merges 1\n".as_slice()
    );
    Ok(())
}

#[test]
fn notes_of_entries_that_are_not_there(rt: HostRuntime) -> Result<(), Fail> {
    let one = block(0, 0);
    let two = block(4, 1);
    let lower = block(4, 0);
    let shared = State::S { sharers: 5 };
    let notes = [
        Note::Region {
            range: two,
            state: State::I,
        },
        Note::Region {
            range: two,
            state: shared,
        },
        Note::Gone { range: one },
        Note::Split { range: one },
        Note::Region {
            range: one,
            state: shared,
        },
        Note::Split { range: one },
        Note::Merge { range: two },
        Note::Split { range: two },
        Note::Gone { range: lower },
        Note::Merge { range: two },
        Note::Merge { range: one },
    ];
    assert_eq!(rt;
        report_of(rt.alloc(), &notes)?.as_slice(),
        b"mind 1\nthread 0 running 00000000 out -\nthread 1 running 00000000 out -\nthread 2 running 00001000 out -\ncounts events 0 labels 0 takes 0 gives 0 downs 0 peak 3 splits 3 merges 3\n".as_slice()
    );
    Ok(())
}
