//! Commands among the steps of two threads, of two domains, that run one program.

ghost use Rattle.std.specs.Prelude.{◌≤◌, length};
ghost use Rattle.mind_base.specs.Span.{IsSpan};

use mind_base::{Command, End, NoMemory, Outcome, Perm, Range, Span};
use sample_racks::{images_in, plan_in};
use std::alloc::Global;
use std::process::Abort;
use std::test::Fail;
use tso_machine::{Label, Machine};

// Stores A in page 16, reserves and stores it again there, and exits with the answer of the last store
// added to the byte that is there then: lui a1, 16; addi a2, zero, 65; sw a2, 0(a1); lr.w a3, (a1);
// sc.w a0, a2, (a1); lw a4, 0(a1); add a0, a0, a4; addi a7, zero, 2; ecall.
static PROGRAM: [u8; 36] = [
    0xb7, 0x05, 0x01, 0x00, 0x13, 0x06, 0x10, 0x04, 0x23, 0xa0, 0xc5, 0x00, 0xaf, 0xa6, 0x05, 0x10,
    0x2f, 0xa5, 0xc5, 0x18, 0x03, 0xa7, 0x05, 0x00, 0x33, 0x05, 0xe5, 0x00, 0x93, 0x08, 0x20, 0x00,
    0x73, 0x00, 0x00, 0x00,
];

/// A blade, four pages of each of two domains from page 16 on, and slots for two blocks; no page is mapped.
const RACK: &str =
    "format = 1\nslots = 1\nprotect = 2\noutliers = 0\nregion = 0\nmost = 0\nthreshold = 0\nblade = [{ frames = 1 }]\nmemory = [{ spare = 0, homes = [{ domain = 0, page = 16, pages = 4 }, { domain = 1, page = 16, pages = 4 }] }]\nimage = [{ name = \"a.bin\", at = 0 }]\nthread = [{ blade = 0, domain = 0, image = 0, queue = 1 }, { blade = 0, domain = 1, image = 0, queue = 1 }]\n";

fn machine_of(alloc: Global, commands: &[Command]) -> Result<Machine, Fail>
    requires { length commands.now ≤ 1000000 }
{
    let plan = plan_in(alloc, RACK)?;
    let images = images_in(alloc, plan.images.as_slice(), &[&PROGRAM])?;
    let machine = Machine::start(alloc, &plan, images.as_slice(), commands)?;
    Ok(machine)
}

/// The number of the first row whose label is not enabled as it says; None where there is none.
fn first_other(machine: &mut Machine, rows: &[(Label, bool)]) -> Result<Option<usize>, NoMemory> {
    for (i, (label, enabled)) in rows.iter().enumerate() {
        if machine.step(*label)? != *enabled {
            return Ok(Some(i));
        }
    }
    Ok(None)
}

/// Whether a command that was not taken ends so now; None where it is not to be taken.
fn ends_so(machine: &mut Machine, index: u32, wanted: Option<Outcome>) -> Result<bool, NoMemory> {
    if machine.outcome(index).is_some() {
        return Ok(false);
    }
    let taken = machine.step(Label::Command { index })?;
    Ok(taken == wanted.is_some() && machine.outcome(index) == wanted)
}

/// The number of the first command that does not end as its row says; None where there is none.
fn first_other_end(
    machine: &mut Machine,
    rows: &[(u32, Option<Outcome>)],
) -> Result<Option<u32>, NoMemory> {
    for (index, wanted) in rows {
        if !ends_so(machine, *index, *wanted)? {
            return Ok(Some(*index));
        }
    }
    Ok(None)
}

/// Where the first thread stands.
fn first_end(machine: &Machine) -> Option<End> {
    if machine.thread_count() == 0 {
        return None;
    }
    Some(machine.end(0))
}

/// What a run of rows came to: the first row that went otherwise, how command 1 ended, and where the
/// first thread stands.
#[derive(Clone, Copy, Debug, PartialEq, Eq)]
struct Came {
    other: Option<usize>,
    second: Option<Outcome>,
    end: Option<End>,
}

fn run(alloc: Global, commands: &[Command], rows: &[(Label, bool)]) -> Result<Came, Fail>
    requires { length commands.now ≤ 1000000 }
{
    let mut machine = machine_of(alloc, commands)?;
    let other = first_other(&mut machine, rows)?;
    Ok(Came {
        other,
        second: machine.outcome(1),
        end: first_end(&machine),
    })
}

fn comes_to<R: Abort + AllocGlobal>(
    rt: &R,
    commands: &[Command],
    rows: &[(Label, bool)],
    wanted: Came,
) -> Result<(), Fail>
    requires { length commands.now ≤ 1000000 }
{
    let came = run(rt.alloc(), commands, rows)?;
    assert_eq!(rt; came, wanted);
    Ok(())
}

fn span_at(domain: u8, base: u32, pages: u32) -> Span
    requires { IsSpan domain base pages }
{
    Span {
        domain,
        base,
        pages,
    }
}

fn page() -> Span {
    span_at(0, 16, 1)
}

fn other_page() -> Span {
    span_at(1, 16, 1)
}

fn map(span: Span) -> Command {
    Command::Map {
        span,
        perm: Perm::Rw,
    }
}

fn unmap(span: Span) -> Command {
    Command::Unmap { span }
}

fn protect(span: Span) -> Command {
    Command::Protect {
        span,
        perm: Perm::R,
    }
}

fn migrate() -> Command {
    let range = Range {
        domain: 0,
        base: 16,
        log: 0,
    };
    Command::Migrate { range, memory: 0 }
}

const EXEC: Label = Label::Exec { hart: 0 };

const DRAIN: Label = Label::Drain { hart: 0 };

const EXEC_OTHER: Label = Label::Exec { hart: 1 };

const DRAIN_OTHER: Label = Label::Drain { hart: 1 };

fn each_command() -> [Command; 8] {
    [
        unmap(page()),
        map(page()),
        map(span_at(0, 15, 2)), // page 15 has no home, and page 16 is mapped
        map(page()),
        migrate(),
        map(other_page()),
        map(span_at(0, 18, 1)), // a third block
        protect(page()),
    ]
}

static OUTCOMES: [(u32, Option<Outcome>); 8] = [
    (0, Some(Outcome::Unmapped)),
    (1, Some(Outcome::Fine)),
    (2, Some(Outcome::Unplaced)),
    (3, Some(Outcome::Overlap)),
    (4, None),
    (5, Some(Outcome::Fine)),
    (6, Some(Outcome::Slots)),
    (7, Some(Outcome::Fine)),
];

#[test]
fn each_outcome_of_a_command(rt: HostRuntime) -> Result<(), Fail> {
    let mut machine = machine_of(rt.alloc(), &each_command())?;
    assert_eq!(rt; first_other_end(&mut machine, &OUTCOMES)?, None);
    Ok(())
}

fn maps_and_protects() -> [Command; 4] {
    [
        map(page()),
        map(other_page()),
        protect(page()),
        protect(other_page()),
    ]
}

static WAITS: [(Label, bool); 12] = [
    (Label::Command { index: 1 }, false), // command 0 is before it
    (Label::Command { index: 0 }, true),
    (Label::Command { index: 1 }, true),
    (EXEC_OTHER, true),
    (EXEC_OTHER, true),
    (EXEC_OTHER, true), // buffers a store in page 16 of domain 1
    (Label::Command { index: 2 }, true),
    (Label::Command { index: 3 }, false),
    (DRAIN_OTHER, true),
    (Label::Command { index: 3 }, true),
    (Label::Command { index: 3 }, false), // it is taken
    (Label::Command { index: 4 }, false), // there is none
];

#[test]
fn a_command_waits_for_its_turn_and_for_stores_in_its_span(rt: HostRuntime) -> Result<(), Fail> {
    let wanted = Came {
        other: None,
        second: Some(Outcome::Fine),
        end: Some(End::Running { pc: 0 }),
    };
    comes_to(&rt, &maps_and_protects(), &WAITS, wanted)
}

static MAPPED_BEFORE_THE_STORE: [(Label, bool); 13] = [
    (Label::Command { index: 0 }, true),
    (EXEC, true),
    (EXEC, true),
    (EXEC, true),
    (EXEC, false), // the reserving load waits for the store
    (DRAIN, true),
    (EXEC, true),
    (Label::Command { index: 1 }, true),
    (EXEC, true),
    (EXEC, true),
    (EXEC, true),
    (EXEC, true),
    (EXEC, true),
];

#[test]
fn a_refused_map_takes_the_reservation_away(rt: HostRuntime) -> Result<(), Fail> {
    // the conditional store gave 1, and 65 is what the first store left
    let wanted = Came {
        other: None,
        second: Some(Outcome::Overlap),
        end: Some(End::Exit { value: 66 }),
    };
    let commands = [map(page()), map(page())];
    comes_to(&rt, &commands, &MAPPED_BEFORE_THE_STORE, wanted)
}

static ANEW_BEFORE_THE_STORE: [(Label, bool); 13] = [
    (Label::Command { index: 0 }, true),
    (EXEC, true),
    (EXEC, true),
    (EXEC, true),
    (DRAIN, true),
    (EXEC, true),
    (EXEC, true),
    (Label::Command { index: 1 }, true),
    (Label::Command { index: 2 }, true),
    (EXEC, true),
    (EXEC, true),
    (EXEC, true),
    (EXEC, true),
];

#[test]
fn a_mapped_page_is_zero(rt: HostRuntime) -> Result<(), Fail> {
    let wanted = Came {
        other: None,
        second: Some(Outcome::Fine),
        end: Some(End::Exit { value: 0 }),
    };
    let commands = [map(page()), unmap(page()), map(page())];
    comes_to(&rt, &commands, &ANEW_BEFORE_THE_STORE, wanted)
}
