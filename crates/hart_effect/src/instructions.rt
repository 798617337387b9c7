//! What an instruction does to its hart and to memory, over what the hart finds around it.

ghost use Rattle.std.specs.Prelude.{◌≡◌, ◌<◌, ◌%◌, List, Option, IfSome, IfNone, option_map};
ghost use Rattle.hart_core.specs.Act.{IsWellFormedAct};
ghost use Rattle.hart_core.specs.Memory.{IsAccessSize};
ghost use Rattle.hart_core.specs.Registers.{register};
ghost use Rattle.hart_core.specs.Values.{word_sum};
ghost use Rattle.hart_core.specs.declared.outcome.Act.TheVariants as act_of;
ghost use Rattle.hart_core.specs.declared.outcome.LockedKind.TheVariants as locked;
ghost use Rattle.hart_effect.specs.Access.{access_denied, spelled_number};
ghost use Rattle.hart_effect.specs.Deed.{acted, Alone, called, loaded, stored_later, load_reserved, store_conditional, atomic_done, locked_done, exchanged, carried_out, AsksWellFormed};
ghost use Rattle.hart_effect.specs.Thread.{Thread, thread_with};
ghost use Rattle.mind_base.specs.Pending.{PendingView};
ghost use Rattle.mind_base.specs.Place.{Granule as GranuleView};
ghost use Rattle.hart_effect.specs.Work.{deed_of, around_of, IsWorkOf, IsAlone, IsStoring, WorkFits, WorkFitsFound, byte_by};

use crate::accesses::{Access, AccessKind};
use crate::waits::must_wait;
use crate::works::{AccessEffect, Change, Continued, Work};
use crate::{Core, Found, Surroundings};
use hart_core::{Act, LockedKind, amo, extend, load_size};
use mind_base::{FaultKind, Pending, Place};
use rv32_decode::{AmoKind, LoadKind};

/// Who takes a step: the hart's number, its domain, which is below 16, and the pc that it stands at.
#[derive(Clone, Copy, Debug, PartialEq, Eq)]
pub struct Here {
    pub hart: u8,
    pub domain: u8,
    pub pc: u32,
}

impl Work {
    /// What a thread with this core is to do with what it found at its pc, in these surroundings. None exactly
    /// where it must wait until its stores have drained.
    pub fn of<S: Surroundings>(found: Found, here: Here, core: &Core, around: &S) -> Option<Work>
        requires domain { here.domain < 16 }
        requires well_formed { AsksWellFormed found }
        ensures deed { option_map (λ work. deed_of work (thread_with core.now (S.stores around.now) (S.reserved around.now))) result
            ≡ carried_out found (around_of here.hart here.domain (S.bytes around.now) (S.perms around.now)) here.pc
            (thread_with core.now (S.stores around.now) (S.reserved around.now)) }
        ensures fits { IfSome result (WorkFitsFound found here.domain) }
    {
        match found {
            Found::Outside => Some(faulting(FaultKind::Fetch, here.pc, here.pc)),
            Found::Unknown { word } => Some(faulting(FaultKind::Illegal, word, here.pc)),
            Found::Asks { asked } => {
                if must_wait(asked, around.waiting()) {
                    return None;
                }
                Some(acting(asked, here, core, around))
            }
        }
    }
}

/// What an instruction asks.
fn acting<S: Surroundings>(asked: Act, here: Here, core: &Core, around: &S) -> Work
    requires domain { here.domain < 16 }
    requires well_formed { IsWellFormedAct asked }
    ensures deed { deed_of result (thread_with core.now (S.stores around.now) (S.reserved around.now))
        ≡ acted asked (around_of here.hart here.domain (S.bytes around.now) (S.perms around.now)) here.pc
        (thread_with core.now (S.stores around.now) (S.reserved around.now)) }
    ensures fits { WorkFits asked here.domain result }
{
    match asked {
        Act::Next { rd, value, pc } => going_on(Continued { rd, value, pc }),
        Act::Load { kind, rd, address } => loading(kind, rd, address, here, around),
        Act::Store {
            size,
            address,
            value,
        } => storing(size, address, value, here, around),
        Act::Locked {
            kind,
            rd,
            address,
            operand,
        } => locking(
            kind,
            Operands {
                rd,
                address,
                operand,
            },
            here,
            around,
        ),
        Act::Fence { .. } => going_on(next_word(0, 0, here.pc)),
        Act::Call => calling(here, core),
        Act::Jumped { target } => faulting(FaultKind::Target, target, here.pc),
        Act::Broke => faulting(FaultKind::Break, 0, here.pc),
    }
}

/// The core goes on, and nothing else changes.
fn going_on(next: Continued) -> Work
    ensures { result ≡ Work.Alone (Change.Continues next) }
{
    Work::Alone {
        change: Change::Continues { next },
    }
}

/// Register `rd` takes the value, and the core goes on at the word behind `pc`.
fn next_word(rd: u8, value: u32, pc: u32) -> Continued
    requires { rd < 32 }
    ensures { result ≡ record { rd = rd; value = value; pc = word_sum pc 4 } }
{
    Continued {
        rd,
        value,
        pc: pc.wrapping_add(4),
    }
}

fn faulting(kind: FaultKind, value: u32, pc: u32) -> Work
    ensures { result ≡ Work.Alone (Change.Faults kind value pc) }
{
    Work::Alone {
        change: Change::Faults { kind, value, pc },
    }
}

/// An environment call, by its number in a7: 1 puts out the low byte of a0, 2 exits with a0, 3 asks for the
/// hart's number.
fn calling(here: Here, core: &Core) -> Work
    ensures deed { (buffer : List PendingView) (reserved : Option GranuleView) → deed_of result (thread_with core.now buffer reserved)
        ≡ Alone (called (register core.now.regs 17) (register core.now.regs 10) here.hart here.pc (thread_with core.now buffer reserved)) }
    ensures fits { IsAlone result }
{
    let kind = core.regs().get(17);
    let value = core.regs().get(10);
    match kind {
        1 => Work::Alone {
            change: Change::PutsOut {
                byte: (value & 0xff) as u8,
                pc: here.pc.wrapping_add(4),
            },
        },
        2 => Work::Alone {
            change: Change::Exits { value },
        },
        3 => going_on(next_word(10, u32::from(here.hart), here.pc)),
        _ => faulting(FaultKind::Call, kind, here.pc),
    }
}

/// The access of so many bytes at an address.
fn access(kind: AccessKind, address: u32, size: u8, here: Here) -> Access
    requires domain { here.domain < 16 }
    requires size { IsAccessSize size }
    ensures { result ≡ record { kind = kind; domain = here.domain; address = address; size = size } }
{
    Access {
        kind,
        domain: here.domain,
        address,
        size,
    }
}

/// Why the access is denied, if it is.
fn denied<S: Surroundings>(access: Access, around: &S) -> Option<FaultKind>
    ensures denied { result ≡ access_denied (S.perms around.now) access }
    ensures aligned { IfNone result (access.address % access.size ≡ 0) }
{
    if !access.is_aligned() {
        return Some(FaultKind::Align);
    }
    if access.kind.is_allowed(around.perm(access.place().page())) {
        None
    } else {
        Some(access.kind.fault())
    }
}

fn loading<S: Surroundings>(kind: LoadKind, rd: u8, address: u32, here: Here, around: &S) -> Work
    requires domain { here.domain < 16 }
    requires rd { rd < 32 }
    ensures deed { IsWorkOf (loaded kind rd address (around_of here.hart here.domain (S.bytes around.now) (S.perms around.now)) here.pc)
        (S.stores around.now) (S.reserved around.now) result }
    ensures fits { IsAlone result }
{
    let size = load_size(kind);
    let access = access(AccessKind::Reads, address, size, here);
    if let Some(fault) = denied(access, around) {
        return faulting(fault, address, here.pc);
    }
    let raw = number(Sight::Thread, here.domain, address, size, around);
    going_on(next_word(rd, extend(kind, raw), here.pc))
}

fn storing<S: Surroundings>(size: u8, address: u32, value: u32, here: Here, around: &S) -> Work
    requires domain { here.domain < 16 }
    requires size { IsAccessSize size }
    ensures deed { IsWorkOf (stored_later size address value (around_of here.hart here.domain (S.bytes around.now) (S.perms around.now)) here.pc)
        (S.stores around.now) (S.reserved around.now) result }
    ensures fits { WorkFits (act_of.Store size address value) here.domain result }
{
    let access = access(AccessKind::WritesLater, address, size, here);
    if let Some(fault) = denied(access, around) {
        return faulting(fault, address, here.pc);
    }
    let store = Pending {
        address,
        size,
        value,
    };
    Work::Accesses {
        effect: AccessEffect::Buffers { store },
        next: next_word(0, 0, here.pc),
    }
}

/// What a locked operation names: the register that takes what it gives, the address of its word, and the
/// operand of an SC or an AMO.
#[derive(Clone, Copy, Debug, PartialEq, Eq)]
struct Operands {
    rd: u8,
    address: u32,
    operand: u32,
}

fn locking<S: Surroundings>(kind: LockedKind, of: Operands, here: Here, around: &S) -> Work
    requires domain { here.domain < 16 }
    requires rd { of.rd < 32 }
    ensures deed { IsWorkOf (locked_done kind of.rd of.address of.operand (around_of here.hart here.domain (S.bytes around.now) (S.perms around.now)) here.pc)
        (S.stores around.now) (S.reserved around.now) result }
    ensures fits { WorkFits (act_of.Locked kind of.rd of.address of.operand) here.domain result }
{
    match kind {
        LockedKind::Lr => reserving(of, here, around),
        LockedKind::Sc => storing_if_reserved(of, here, around),
        LockedKind::Amo { kind } => combining(kind, of, here, around),
    }
}

/// LR reads the word and reserves its granule.
fn reserving<S: Surroundings>(of: Operands, here: Here, around: &S) -> Work
    requires domain { here.domain < 16 }
    requires rd { of.rd < 32 }
    ensures deed { IsWorkOf (load_reserved of.rd of.address (around_of here.hart here.domain (S.bytes around.now) (S.perms around.now)) here.pc)
        (S.stores around.now) (S.reserved around.now) result }
    ensures fits { WorkFits (act_of.Locked locked.Lr of.rd of.address of.operand) here.domain result }
{
    let access = access(AccessKind::Reads, of.address, 4, here);
    if let Some(fault) = denied(access, around) {
        return faulting(fault, of.address, here.pc);
    }
    let granule = access.place().granule();
    let value = number(Sight::Memory, here.domain, of.address, 4, around);
    Work::Accesses {
        effect: AccessEffect::Reserves { granule },
        next: next_word(of.rd, value, here.pc),
    }
}

/// SC stores and gives 0 where the thread's reservation is on the granule; else it gives 1, and the
/// reservation goes.
fn storing_if_reserved<S: Surroundings>(of: Operands, here: Here, around: &S) -> Work
    requires domain { here.domain < 16 }
    requires rd { of.rd < 32 }
    ensures deed { IsWorkOf (store_conditional of.rd of.address of.operand (around_of here.hart here.domain (S.bytes around.now) (S.perms around.now)) here.pc)
        (S.stores around.now) (S.reserved around.now) result }
    ensures fits { WorkFits (act_of.Locked locked.Sc of.rd of.address of.operand) here.domain result }
{
    let access = access(AccessKind::WritesAtOnce, of.address, 4, here);
    if let Some(fault) = denied(access, around) {
        return faulting(fault, of.address, here.pc);
    }
    if around.holds_reservation(access.place().granule()) {
        return exchanging(of, 0, of.operand, here.pc);
    }
    Work::Accesses {
        effect: AccessEffect::GivesUp,
        next: next_word(of.rd, 1, here.pc),
    }
}

/// An atomic memory operation reads the word and writes the combined one.
fn combining<S: Surroundings>(kind: AmoKind, of: Operands, here: Here, around: &S) -> Work
    requires domain { here.domain < 16 }
    requires rd { of.rd < 32 }
    ensures deed { IsWorkOf (atomic_done kind of.rd of.address of.operand (around_of here.hart here.domain (S.bytes around.now) (S.perms around.now)) here.pc)
        (S.stores around.now) (S.reserved around.now) result }
    ensures fits { WorkFits (act_of.Locked (locked.Amo kind) of.rd of.address of.operand) here.domain result }
{
    let access = access(AccessKind::WritesAtOnce, of.address, 4, here);
    if let Some(fault) = denied(access, around) {
        return faulting(fault, of.address, here.pc);
    }
    let old = number(Sight::Memory, here.domain, of.address, 4, around);
    exchanging(of, old, amo(kind, old, of.operand), here.pc)
}

/// The register takes a value, and in the same step the word takes effect in memory.
fn exchanging(of: Operands, value: u32, word: u32, pc: u32) -> Work
    requires rd { of.rd < 32 }
    requires aligned { of.address % 4 ≡ 0 }
    ensures deed { (thread : Thread) → deed_of result thread ≡ exchanged of.rd value of.address word pc thread }
    ensures stores { IsStoring result }
{
    let store = Pending {
        address: of.address,
        size: 4,
        value: word,
    };
    Work::Accesses {
        effect: AccessEffect::Stores { store },
        next: next_word(of.rd, value, pc),
    }
}

/// Which bytes an access reads: those that its thread sees, or memory's alone.
#[derive(Clone, Copy, Debug, PartialEq, Eq)]
pub(crate) enum Sight {
    Thread,
    Memory,
}

/// The byte at an address of a thread of the domain.
fn byte<S: Surroundings>(sight: Sight, domain: u8, address: u32, around: &S) -> u8
    requires { domain < 16 }
    ensures { result ≡ byte_by sight (S.bytes around.now) domain (S.stores around.now) address }
{
    match sight {
        Sight::Thread => match around.newest_byte(address) {
            Some(byte) => byte,
            None => around.byte(Place::of(domain, address)),
        },
        Sight::Memory => around.byte(Place::of(domain, address)),
    }
}

/// The number in `size` bytes, 1, 2 or 4, from an address on, the lowest first.
fn number<S: Surroundings>(sight: Sight, domain: u8, address: u32, size: u8, around: &S) -> u32
    requires domain { domain < 16 }
    requires size { IsAccessSize size }
    requires aligned { address % size ≡ 0 }
    ensures { result ≡ spelled_number (byte_by sight (S.bytes around.now) domain (S.stores around.now)) address size }
{
    let first = u32::from(byte(sight, domain, address, around));
    if size == 1 {
        return first;
    }
    let second = u32::from(byte(sight, domain, address + 1, around));
    if size == 2 {
        return first + 256 * second;
    }
    let third = u32::from(byte(sight, domain, address + 2, around));
    let fourth = u32::from(byte(sight, domain, address + 3, around));
    first + 256 * (second + 256 * (third + 256 * fourth))
}
