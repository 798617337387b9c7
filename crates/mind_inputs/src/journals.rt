//! The inputs of a check: a rack, its images, a schedule and a journal.

ghost use Rattle.std.specs.Prelude.{◌≡◌, ◌≤◌, length, IfOk};
ghost use Rattle.mind_base.specs.Fit.{IsFit, FitImages};
ghost use Rattle.mind_inputs.specs.Loading.{Brings};
ghost use Rattle.mind_inputs.specs.Journals.{GivesJournal, JudgesJournal, JudgesCheck, notes_of, checkable};

use crate::loading::{load, refused, stopped_by};
use crate::{Loaded, Refusal, Stopped};
use journal_text::{JournalRefusal, journal_of};
use mind_base::{Log, Store};
use std::alloc::Global;

/// The greatest length of a journal, in bytes.
const JOURNAL_BYTES: u64 = 268435456;

fn log_from(alloc: Global, bytes: &[u8]) -> Result<Log, Stopped>
    requires { length bytes.now ≤ 268435456 }
    ensures { GivesJournal bytes.now result }
{
    match journal_of(alloc, bytes) {
        Ok(log) => Ok(log),
        Err(JournalRefusal::Refused { line, what }) => {
            refused(Refusal::JournalRefused { line, what })
        }
        Err(JournalRefusal::NoMemory) => Err(Stopped::NoMemory),
    }
}

/// Reads and judges the journal of this name.
pub fn load_journal<S: Store>(alloc: Global, store: &mut S, name: &str) -> Result<Log, Stopped>
    // The store holds what it held, and its counts never fall.
    ensures keeps { S.holds store.new ≡ S.holds store.old }
    ensures faults { S.faults store.old ≤ S.faults store.new }
    ensures missed { S.missed store.old ≤ S.missed store.new }

    // The notes are those whose text the journal is; or it is refused exactly as it is judged.
    ensures brings { Brings (S.holds store.old) (JudgesJournal (S.holds store.old) name.now)
        (S.faults store.old) (S.faults store.new) (S.missed store.old) (S.missed store.new) (notes_of result) }
{
    match store.read_all(alloc, name, JOURNAL_BYTES) {
        Ok(bytes) => log_from(alloc, bytes.as_slice()),
        Err(error) => Err(stopped_by(error, Refusal::JournalLong)),
    }
}

/// Reads and judges the inputs of a run, as `load` does, and then the journal of this name. The first
/// that is not held or is refused decides, and nothing is read behind it.
pub fn load_for_check<S: Store>(
    alloc: Global,
    store: &mut S,
    rack: &str,
    schedule: &str,
    journal: &str,
) -> Result<(Loaded, Log), Stopped>
    // The store holds what it held, and its counts never fall.
    ensures keeps { S.holds store.new ≡ S.holds store.old }
    ensures faults { S.faults store.old ≤ S.faults store.new }
    ensures missed { S.missed store.old ≤ S.missed store.new }

    // The inputs are accepted or refused exactly as they are judged.
    ensures brings { Brings (S.holds store.old) (JudgesCheck (S.holds store.old) (record { rack = rack.now; schedule = schedule.now }) journal.now)
        (S.faults store.old) (S.faults store.new) (S.missed store.old) (S.missed store.new) (checkable result) }

    // What is accepted: a fit rack and its images.
    ensures fit { IfOk result (λ inputs. IsFit inputs.0.plan) }
    ensures images { IfOk result (λ inputs. FitImages inputs.0.plan.images inputs.0.images) }
{
    let loaded = match load(alloc, store, rack, schedule) {
        Ok(loaded) => loaded,
        Err(stopped) => return Err(stopped),
    };
    let log = match load_journal(alloc, store, journal) {
        Ok(log) => log,
        Err(stopped) => return Err(stopped),
    };
    Ok((loaded, log))
}
