//! Transitions that have all their answers, ended one by one.

ghost use Rattle.std.specs.Prelude.{◌≡◌, ◌++◌, ◌↔◌, ℕ, false, None, All, Any, IsTrue, OnOk, OnErr, length, map};
ghost use Rattle.std.specs.List.{AllByRecursion, flat_map};
ghost use Rattle.invalidate_multicast.specs.Transition.{is_answered, WaitsFor};
ghost use Rattle.switch_core.specs.Handling.{ended, noted_end};
ghost use Rattle.switch_core.specs.Invariant.{IsFitEntry};
ghost use Rattle.switch_core.specs.Sending.{Begins};

use invalidate_multicast::{ended, is_among};
use mind_base::{Log, NoMemory, Note};
use region_directory::{Busy, Directory, Entry};

/// Notes the state that the entry comes to, where its transition waits for nobody.
fn note_end(entry: &Entry, log: &mut Log) -> Result<(), NoMemory>
    ensures ok { OnOk result (log.new.notes ≡ log.old.notes ++ noted_end entry.now) }
    ensures err { OnErr result (log.new.notes ≡ log.old.notes) }
{
    let Some(busy) = entry.busy else {
        return Ok(());
    };
    if busy.waiting != 0 {
        return Ok(());
    }
    log.add(Note::Region {
        range: entry.range,
        state: busy.target,
    })?;
    Ok(())
}

/// Notes the state that each entry comes to whose transition waits for nobody.
fn note_all(directory: &Directory, log: &mut Log) -> Result<(), NoMemory>
    ensures ok { OnOk result (log.new.notes ≡ log.old.notes ++ flat_map noted_end directory.now.entries) }
    ensures log { Begins log.old.notes log.new.notes }
{
    for i in 0..directory.len() {
        let entry = directory.entry(i);
        note_end(&entry, log)?;
    }
    Ok(())
}

/// Ends each transition that waits for nobody.
fn end_each(directory: &mut Directory)
    ensures ended { directory.new ≡ record directory.old { entries = map ended directory.old.entries } }
    ensures waits { AllByRecursion (λ entry. is_answered entry.busy ≡ false) directory.new.entries }
    ensures count { length directory.new.entries ≡ length directory.old.entries }
    ensures slots { directory.new.slots ≡ directory.old.slots }
    ensures fit { (blades : ℕ) → AllByRecursion (IsFitEntry blades) directory.old.entries
        → AllByRecursion (IsFitEntry blades) directory.new.entries }
{
    'ending: loop {
        let Some(_) = ended(directory) else {
            return;
        };
    }
}

/// Ends each transition that waits for nobody, and notes the state that its entry comes to. After an
/// error they have ended all the same, and not all are noted.
pub fn end_all(directory: &mut Directory, log: &mut Log) -> Result<(), NoMemory>
    ensures ended { directory.new ≡ record directory.old { entries = map ended directory.old.entries } }
    ensures waits { AllByRecursion (λ entry. is_answered entry.busy ≡ false) directory.new.entries }
    ensures noted { OnOk result (log.new.notes ≡ log.old.notes ++ flat_map noted_end directory.old.entries) }
    ensures count { length directory.new.entries ≡ length directory.old.entries }
    ensures slots { directory.new.slots ≡ directory.old.slots }
    ensures fit { (blades : ℕ) → AllByRecursion (IsFitEntry blades) directory.old.entries
        → AllByRecursion (IsFitEntry blades) directory.new.entries }
    ensures log { Begins log.old.notes log.new.notes }
{
    let noted = note_all(directory, log);
    end_each(directory);
    noted
}

/// Whether no transition is under way.
pub fn is_idle(directory: &Directory) -> bool
    ensures { IsTrue result ↔ All (λ entry. entry.busy ≡ None) directory.now.entries }
{
    for i in 0..directory.len() {
        let entry = directory.entry(i);
        if entry.busy.is_some() {
            return false;
        }
    }
    true
}

/// Whether the transition has the number and waits for the blade.
fn waits_for(busy: &Option<Busy>, number: u32, blade: u8) -> bool
    ensures { IsTrue result ↔ WaitsFor number blade busy.now }
{
    match busy {
        Some(busy) => busy.number == number && is_among(busy.waiting, blade),
        None => false,
    }
}

/// Whether a transition with the number waits for the blade.
pub fn is_awaited(directory: &Directory, number: u32, blade: u8) -> bool
    ensures { IsTrue result ↔ Any (λ entry. WaitsFor number blade entry.busy) directory.now.entries }
{
    for i in 0..directory.len() {
        let entry = directory.entry(i);
        if waits_for(&entry.busy, number, blade) {
            return true;
        }
    }
    false
}
