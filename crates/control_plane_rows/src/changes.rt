//! Commands on small tables of permissions, by rows.

ghost use Rattle.std.specs.Prelude.{◌≡◌, ◌+◌, ◌<◌, ◌≤◌};

use control_plane::{apply, decide};
use mind_base::{Command, MemoryPlan, Outcome, Perm, Sequence, Span};
use protect_table::Protect;
use std::test::Fail;

fn run(base: u32, pages: u32) -> Span
    requires some { 0 < pages }
    requires inside { base + pages ≤ 1048576 }
{
    Span {
        domain: 0,
        base,
        pages,
    }
}

fn map(span: Span, perm: Perm) -> Command
    ensures { result ≡ Command.Map span perm }
{
    Command::Map { span, perm }
}

fn protect_reading(span: Span) -> Command
    ensures { result ≡ Command.Protect span Perm.R }
{
    let perm = Perm::R;
    Command::Protect { span, perm }
}

#[test]
fn the_first_outcome_that_fits(rt: HostRuntime) -> Result<(), Fail> {
    let mut homes = Sequence::new(rt.alloc());
    homes.push(run(0, 8))?;
    let memories = [MemoryPlan { homes, spare: 0 }];
    let mut protect = Protect::new(rt.alloc(), 2)?;
    let four = map(run(4, 4), Perm::Rw);
    assert_eq!(rt; decide(&four, &memories, &protect), Outcome::Fine);
    assert_eq!(rt; apply(&four, &mut protect), Ok(()));
    let past = map(run(6, 4), Perm::R);
    let again = map(run(3, 2), Perm::R);
    let unmapped = Command::Unmap { span: run(3, 2) };
    let fifth = protect_reading(run(5, 1));
    let upper = protect_reading(run(6, 2));
    assert_eq!(rt; decide(&past, &memories, &protect), Outcome::Unplaced);
    assert_eq!(rt; decide(&again, &memories, &protect), Outcome::Overlap);
    assert_eq!(rt; decide(&unmapped, &memories, &protect), Outcome::Unmapped);
    assert_eq!(rt; decide(&fifth, &memories, &protect), Outcome::Slots);
    assert_eq!(rt; decide(&upper, &memories, &protect), Outcome::Fine);
    assert_eq!(rt; apply(&upper, &mut protect), Ok(()));
    assert_eq!(rt; protect.cover(), 2);
    Ok(())
}
