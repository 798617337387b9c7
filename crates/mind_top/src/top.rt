//! The program over any store and sink.

ghost use Rattle.std.specs.Prelude.{◌≡◌, ◌≤◌, ◌⊎◌, ℕ, List, [], Ok, None, map, string_bytes, IfSome};
ghost use Rattle.mind_base.specs.Store.{Rises};
ghost use Rattle.mind_base.specs.Sink.{Appends};
ghost use Rattle.mind_base.specs.declared.plans.RackPlan.{RackPlan as rack_plan};
ghost use Rattle.rack_gen.specs.Generator.{generated_text};
ghost use Rattle.mind_inputs.specs.Words.{Paths};
ghost use Rattle.mind_inputs.specs.Inputs.{Accepted, JudgesOne, Judges, JudgesMade, rack_seen_judged};
ghost use Rattle.mind_inputs.specs.Journals.{Checkable, JudgesCheck};
ghost use Rattle.mind_inputs.specs.Texts.{text_seen_judged, words_seen_judged};
ghost use Rattle.rv32_text.specs.Image.{image_words};
ghost use Rattle.rv32_text.specs.Written.{disassembled};
ghost use Rattle.mind_top.specs.declared.statuses.Status.{Status as status};
ghost use Rattle.mind_top.specs.Words.{Form, IsForm, IsRunForm, IsJournalForm, IsCheckForm, IsMakeForm, IsLoadForm, IsAsmForm, IsDisForm, RunsNothing, IsNoForm};
ghost use Rattle.mind_top.specs.Due.{IsWhole, IsStuck, not_a_run_line, StopsRun, IsAnswered, Decides};
ghost use Rattle.mind_top.specs.Ending.{EndsWith, KeepsOutside, StaysUnlessReadFault, WritesOnce, counts};
ghost use Rattle.mind_top.specs.Headline.{Headline, JournalHeadline};
ghost use Rattle.mind_top.specs.Left.{Left, LeavesNothing};

use crate::Status;
use crate::checks::answer_check;
use crate::instructions::{answer_asm, answer_dis};
use crate::makes::answer_make;
use crate::runs::run_loaded;
use crate::texts::say;
use crate::words::{Asked, Output, asked_of};
use mind_base::{Log, Sink, Store};
use mind_inputs::{load, load_made};
use rack_core::Rack;
use std::alloc::Global;

const USAGE_LINE: &[u8; 153] =
    b"usage: mind run RACK SCHEDULE | journal RACK SCHEDULE | check RACK SCHEDULE JOURNAL | make RACK COUNT SEED | load RACK COUNT SEED | asm TEXT | dis IMAGE\n";

/// Answers the words, and gives the rack that is left.
fn top<S: Store, K: Sink>(
    alloc: Global,
    words: &[String],
    store: &mut S,
    sink: &mut K,
    log: &mut Log,
) -> (Status, Option<Rack>)
    requires empty { log.old.notes ≡ [] }
    ensures outside { KeepsOutside (S.holds store.old) (S.holds store.new)
        (counts (S.faults store.old) (S.missed store.old) (K.faults sink.old)) (counts (S.faults store.new) (S.missed store.new) (K.faults sink.new)) }
    ensures steady { StaysUnlessReadFault (S.faults store.old) (S.faults store.new) (S.missed store.old) (S.missed store.new) result.0 }
    ensures once { WritesOnce (K.writes sink.old) (K.writes sink.new) result.0 }
    ensures unread { IsNoForm (map string_bytes words.now) → S.asked store.new ≡ S.asked store.old }
    ensures ends { EndsWith (S.holds store.old) (map string_bytes words.now) (record { log = log.new.notes; end = result.1 })
        (counts (S.faults store.old) (S.missed store.old) (K.faults sink.old)) (counts (S.faults store.new) (S.missed store.new) (K.faults sink.new))
        (K.written sink.old) (K.written sink.new) result.0 }
{
    match asked_of(words) {
        None => (say(sink, USAGE_LINE, Status::Usage), None),
        Some(
            Asked::Run {
                output,
                rack,
                schedule,
            },
        ) => {
            let loaded = load(alloc, store, rack, schedule);
            run_loaded(alloc, output, loaded, sink, log)
        }
        Some(
            Asked::Check {
                rack,
                schedule,
                journal,
            },
        ) => {
            let status = answer_check(alloc, rack, schedule, journal, store, sink);
            (status, None)
        }
        Some(Asked::Make { rack, drawn }) => {
            let status = answer_make(alloc, rack, drawn.count, drawn.seed, store, sink);
            (status, None)
        }
        Some(Asked::Load { rack, drawn }) => {
            let loaded = load_made(alloc, store, rack, drawn.count, drawn.seed);
            run_loaded(alloc, Output::Report, loaded, sink, log)
        }
        Some(Asked::Asm { text }) => {
            let status = answer_asm(alloc, text, store, sink);
            (status, None)
        }
        Some(Asked::Dis { image }) => {
            let status = answer_dis(alloc, image, store, sink);
            (status, None)
        }
    }
}

/// The program: reads the files that the words name and writes what they ask for, all by one write.
/// `run RACK SCHEDULE` writes the report of a run, `journal RACK SCHEDULE` the text of its log, and
/// `check RACK SCHEDULE JOURNAL` the report of a journal whose labels the machine allows. `make RACK COUNT SEED`
/// writes a schedule that the generator makes, and `load RACK COUNT SEED` the report of a run of that schedule.
/// `asm TEXT` writes the image of a text of instructions, and `dis IMAGE` the text of an image.
///
/// A run, of a schedule that is read or made, is that of a rack, event by event of the schedule. The log gets
/// its notes, and `end` the rack as it is at the end, also where the text could not be written. Where memory ran
/// out there is no rack; where the status is `Spent` it is the one that stopped, since a number of it has its
/// last value. In both cases the log is that of the events that finished, and behind it stands at most the number
/// of the one that stopped.
/// Everywhere else the log stays empty and `end` None.
pub fn mind<S: Store, K: Sink>(
    alloc: Global,
    words: &[String],
    store: &mut S,
    sink: &mut K,
    log: &mut Log,
    end: &mut Option<Rack>,
) -> Status
    requires empty { log.old.notes ≡ [] }
    requires none { end.old ≡ None }

    // Every status, with its cause, what was written, and the log and the rack that are left.
    ensures ends { EndsWith (S.holds store.old) (map string_bytes words.now) (record { log = log.new.notes; end = end.new })
        (counts (S.faults store.old) (S.missed store.old) (K.faults sink.old)) (counts (S.faults store.new) (S.missed store.new) (K.faults sink.new))
        (K.written sink.old) (K.written sink.new) result }

    // The report is that of a run of the machine, the run being the labels of the log. The rack at the end stands
    // for the log, and is reached from the start by the events of the schedule with its notes.
    ensures headline { (paths : Paths) → IsRunForm (map string_bytes words.now) paths → result ≡ Status.Done
        → (accepted : Accepted) × Judges (S.holds store.old) paths (Ok accepted) × (text : List ℕ)
        × Headline accepted (record { log = log.new.notes; end = end.new }) text × Appends (K.written sink.old) (K.written sink.new) text }

    // The journal is the text of the log of such a run.
    ensures journal { (paths : Paths) → IsJournalForm (map string_bytes words.now) paths → result ≡ Status.Done
        → (accepted : Accepted) × Judges (S.holds store.old) paths (Ok accepted) × (text : List ℕ)
        × JournalHeadline accepted (record { log = log.new.notes; end = end.new }) text × Appends (K.written sink.old) (K.written sink.new) text }

    // A journal is found to be that of a run where its labels replay whole, and the report is that of its notes.
    ensures check { (paths : Paths) (journal : List ℕ) → IsCheckForm (map string_bytes words.now) paths journal → result ≡ Status.Done
        → (inputs : Checkable) × JudgesCheck (S.holds store.old) paths journal (Ok inputs) × (text : List ℕ)
        × IsWhole inputs text × Appends (K.written sink.old) (K.written sink.new) text }

    // A schedule is made for an accepted rack.
    ensures make { (rack : List ℕ) (count seed : ℕ) → IsMakeForm (map string_bytes words.now) rack count seed → result ≡ Status.Done
        → (plan : rack_plan) × JudgesOne (S.holds store.old) rack 65536 rack_seen_judged (Ok plan)
        × Appends (K.written sink.old) (K.written sink.new) (generated_text plan count seed) }

    // Such a schedule is run as one that is read is.
    ensures load { (rack : List ℕ) (count seed : ℕ) → IsLoadForm (map string_bytes words.now) rack count seed → result ≡ Status.Done
        → (accepted : Accepted) × JudgesMade (S.holds store.old) rack count seed (Ok accepted) × (text : List ℕ)
        × Headline accepted (record { log = log.new.notes; end = end.new }) text × Appends (K.written sink.old) (K.written sink.new) text }

    // A text of instructions is assembled: its image is written.
    ensures asm { (name : List ℕ) → IsAsmForm (map string_bytes words.now) name → result ≡ Status.Done
        → (image : List ℕ) × JudgesOne (S.holds store.old) name 4194304 text_seen_judged (Ok image) × Appends (K.written sink.old) (K.written sink.new) image }

    // An image is written as a text, a line for each word.
    ensures dis { (name : List ℕ) → IsDisForm (map string_bytes words.now) name → result ≡ Status.Done
        → (image : List ℕ) × JudgesOne (S.holds store.old) name 65536 words_seen_judged (Ok image)
        × Appends (K.written sink.old) (K.written sink.new) (disassembled (image_words image)) }

    // Only a check finds a journal that is none, by its first label that is not enabled.
    ensures not_a_run { result ≡ Status.NotARun → (paths : Paths) × (journal : List ℕ) × IsCheckForm (map string_bytes words.now) paths journal
        × (inputs : Checkable) × JudgesCheck (S.holds store.old) paths journal (Ok inputs) × (label : ℕ) × IsStuck inputs label
        × Appends (K.written sink.old) (K.written sink.new) (not_a_run_line label) }

    // A form that runs no schedule leaves no log and no rack.
    ensures leaves { (form : Form) → IsForm (map string_bytes words.now) form → RunsNothing form
        → LeavesNothing (record { log = log.new.notes; end = end.new }) }

    // A run stops only where a number of its rack, which is left, has its last value. Nothing is written then.
    ensures spent { result ≡ Status.Spent → StopsRun (S.holds store.old) (map string_bytes words.now) (record { log = log.new.notes; end = end.new })
        × (K.written sink.new ≡ K.written sink.old) }

    // Words of no form, and no others, call for the usage line, which takes no memory.
    ensures usage { result ≡ Status.Usage → IsNoForm (map string_bytes words.now) }
    ensures usage_due { IsNoForm (map string_bytes words.now) → IsAnswered (K.faults sink.old) (K.faults sink.new) Status.Usage result }

    // A fault has its cause outside.
    ensures read_fault { result ≡ Status.ReadFault
        → Rises (S.faults store.old) (S.faults store.new) ⊎ Rises (S.missed store.old) (S.missed store.new) }
    ensures write_fault { result ≡ Status.WriteFault → Rises (K.faults sink.old) (K.faults sink.new) }

    // Where the store tells what it holds and no device of it fails, the files decide the status. It gives
    // way to want of memory, in a run to a number at its last value, and to a failed write where the files call
    // for one.
    ensures told { IfSome (S.holds store.old) (λ files. (form : Form) → IsForm (map string_bytes words.now) form
        → ¬ (Rises (S.faults store.old) (S.faults store.new))
        → Decides files form (K.faults sink.old) (K.faults sink.new) result) }

    // No count of the store rises but where a read failed and ended the call. What is due is written by one write, and
    // without it there is none. Words of no form read nothing.
    ensures steady { StaysUnlessReadFault (S.faults store.old) (S.faults store.new) (S.missed store.old) (S.missed store.new) result }
    ensures once { WritesOnce (K.writes sink.old) (K.writes sink.new) result }
    ensures unread { IsNoForm (map string_bytes words.now) → S.asked store.new ≡ S.asked store.old }

    // What the store holds stays as it was, and no count of what failed or was missing falls.
    ensures keeps { S.holds store.new ≡ S.holds store.old }
    ensures faults { S.faults store.old ≤ S.faults store.new }
    ensures missed { S.missed store.old ≤ S.missed store.new }
    ensures failed { K.faults sink.old ≤ K.faults sink.new }
{
    let (status, rack) = top(alloc, words, store, sink, log);
    *end = rack;
    status
}
