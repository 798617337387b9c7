//! How a command ends, and the permissions that it leaves.

ghost use Rattle.std.specs.Prelude.{◌≡◌, ◌≤◌, OnOk, OnErr};
ghost use Rattle.std.specs.List.{list_any};
ghost use Rattle.mind_base.specs.Span.{in_span};
ghost use Rattle.mind_base.specs.Cover.{cover_of};
ghost use Rattle.protect_table.specs.Protect.{permission_at, changed, span_set};
ghost use Rattle.control_plane.specs.Outcome.{are_placed, are_mapped, are_unmapped, outcome_in, IsChange, setting_of, refusal_of, refusal_of_unmapped, permissions_after, protect_after, outcome_of};

use mind_base::{Command, MapPlan, MemoryPlan, NoMemory, Outcome, Page, Perm, Span};
use protect_table::{Protect, SetRefusal};

/// How a command that is no migrate ends: the first outcome that fits. `homes` are the memory blades,
/// in order.
pub fn decide(command: &Command, homes: &[MemoryPlan], protect: &Protect) -> Outcome
    requires { IsChange command.now }
    ensures outcome { result ≡ outcome_of command.now homes.now (permission_at protect.now) protect.now.slots }
    ensures room { result ≡ Outcome.Fine
        → cover_of (permissions_after command.now (permission_at protect.now)) ≤ protect.now.slots }
{
    if let Some(refusal) = refusal_of(command, homes, protect) {
        return refusal;
    }
    let Some(MapPlan { span, perm }) = setting_of(command) else {
        unreachable!();
    };
    within_slots(protect, &span, perm)
}

/// Sets the command's run of pages to its permission, none for an unmap. After an error the table is
/// as it was.
pub fn apply(command: &Command, protect: &mut Protect) -> Result<(), NoMemory>
    requires change { IsChange command.now }
    requires room { cover_of (permissions_after command.now (permission_at protect.old)) ≤ protect.old.slots }
    ensures ok { OnOk result (permission_at protect.new ≡ permissions_after command.now (permission_at protect.old)) }
    ensures exact { OnOk result (protect.new ≡ protect_after command.now protect.old) }
    ensures slots { protect.new.slots ≡ protect.old.slots }
    ensures refused { OnErr result (protect.new ≡ protect.old) }
{
    let Some(MapPlan { span, perm }) = setting_of(command) else {
        unreachable!();
    };
    set(protect, &span, perm)
}

/// What the command sets: a run of pages and the permission that they get, none by an unmap. A migrate
/// sets nothing.
fn setting_of(command: &Command) -> Option<MapPlan>
    ensures { result ≡ setting_of command.now }
{
    match command {
        Command::Map { span, perm } => Some(MapPlan {
            span: *span,
            perm: *perm,
        }),
        Command::Unmap { span } => Some(MapPlan {
            span: *span,
            perm: Perm::No,
        }),
        Command::Protect { span, perm } => Some(MapPlan {
            span: *span,
            perm: *perm,
        }),
        Command::Migrate { .. } => None,
    }
}

/// Why the command is refused, whatever slots there are.
fn refusal_of(command: &Command, homes: &[MemoryPlan], protect: &Protect) -> Option<Outcome>
    ensures { result ≡ refusal_of command.now homes.now (permission_at protect.now) }
{
    match command {
        Command::Map { span, .. } => {
            if !are_placed(homes, span) {
                Some(Outcome::Unplaced)
            } else if !are_unmapped(protect, span) {
                Some(Outcome::Overlap)
            } else {
                None
            }
        }
        Command::Unmap { span } => refusal_of_unmapped(protect, span),
        Command::Protect { span, .. } => refusal_of_unmapped(protect, span),
        Command::Migrate { .. } => None,
    }
}

fn refusal_of_unmapped(protect: &Protect, span: &Span) -> Option<Outcome>
    ensures { result ≡ refusal_of_unmapped span.now (permission_at protect.now) }
{
    if are_mapped(protect, span) {
        None
    } else {
        Some(Outcome::Unmapped)
    }
}

fn set(protect: &mut Protect, span: &Span, perm: Perm) -> Result<(), NoMemory>
    requires { cover_of (changed (permission_at protect.old) span.now perm) ≤ protect.old.slots }
    ensures ok { OnOk result (permission_at protect.new ≡ changed (permission_at protect.old) span.now perm) }
    ensures exact { OnOk result (protect.new ≡ span_set protect.old span.now perm) }
    ensures slots { protect.new.slots ≡ protect.old.slots }
    ensures refused { OnErr result (protect.new ≡ protect.old) }
{
    match protect.set(span, perm) {
        Ok(()) => Ok(()),
        Err(SetRefusal::NoMemory) => Err(NoMemory),
        Err(SetRefusal::Slots) => unreachable!(),
    }
}

fn within_slots(protect: &Protect, span: &Span, perm: Perm) -> Outcome
    ensures { result ≡ outcome_in (changed (permission_at protect.now) span.now perm) protect.now.slots }
{
    if protect.cover_with(span, perm) > protect.slots() {
        Outcome::Slots
    } else {
        Outcome::Fine
    }
}

fn are_mapped(protect: &Protect, span: &Span) -> bool
    ensures { result ≡ are_mapped (permission_at protect.now) span.now }
{
    protect.first_without(span).is_none()
}

fn are_unmapped(protect: &Protect, span: &Span) -> bool
    ensures { result ≡ are_unmapped (permission_at protect.now) span.now }
{
    protect.first_with(span).is_none()
}

fn are_placed(homes: &[MemoryPlan], span: &Span) -> bool
    ensures { result ≡ are_placed homes.now span.now }
{
    for n in 0..span.pages {
        let page = Page {
            domain: span.domain,
            number: span.base + n,
        };
        if !has_home(homes, page) {
            return false;
        }
    }
    true
}

fn has_home(homes: &[MemoryPlan], page: Page) -> bool
    ensures { result ≡ list_any (λ memory. list_any (λ span. in_span span page) memory.homes) homes.now }
{
    homes
        .iter()
        .any(|memory| is_in(memory.homes.as_slice(), page))
}

fn is_in(spans: &[Span], page: Page) -> bool
    ensures { result ≡ list_any (λ span. in_span span page) spans.now }
{
    spans.iter().any(|span| span.has(page))
}
