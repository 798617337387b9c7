//! The lines of threads.

ghost use Rattle.std.specs.Prelude.{◌≡◌, ◌++◌, OnOk};
ghost use Rattle.report_text.specs.ThreadLine.{fault_word, end_text, output_text, thread_line_of, thread_lines};

use crate::texts::{put_bytes, put_word};
use mind_base::{End, FaultKind, NoMemory};
use plain_text::put_decimal;
use std::alloc::Global;
use tso_machine::Machine;

fn word_for(kind: FaultKind) -> &'static [u8]
    ensures { result.now ≡ fault_word kind }
{
    match kind {
        FaultKind::Fetch => b"fetch",
        FaultKind::Illegal => b"illegal",
        FaultKind::Target => b"target",
        FaultKind::Align => b"align",
        FaultKind::Load => b"load",
        FaultKind::Store => b"store",
        FaultKind::Call => b"call",
        FaultKind::Break => b"break",
    }
}

fn put_end(alloc: Global, out: &mut Vec<u8>, end: End) -> Result<(), NoMemory>
    ensures { OnOk result (out.new.items ≡ out.old.items ++ end_text end) }
{
    match end {
        End::Running { pc } => {
            out.extend_from_slice(b"running ")?;
            put_word(out, pc)
        }
        End::Exit { value } => {
            out.extend_from_slice(b"exit ")?;
            put_decimal(alloc, out, u64::from(value))
        }
        End::Fault { kind, value, pc } => put_fault(out, kind, value, pc),
    }
}

fn put_fault(out: &mut Vec<u8>, kind: FaultKind, value: u32, pc: u32) -> Result<(), NoMemory>
    ensures { OnOk result (out.new.items ≡ out.old.items ++ end_text (End.Fault kind value pc)) }
{
    out.extend_from_slice(b"fault ")?;
    out.extend_from_slice(word_for(kind))?;
    out.extend_from_slice(b" ")?;
    put_word(out, value)?;
    out.extend_from_slice(b" at ")?;
    put_word(out, pc)?;
    Ok(())
}

fn put_output(out: &mut Vec<u8>, bytes: &[u8]) -> Result<(), NoMemory>
    ensures { OnOk result (out.new.items ≡ out.old.items ++ output_text bytes.now) }
{
    if bytes.is_empty() {
        out.extend_from_slice(b"-")?;
        return Ok(());
    }
    put_bytes(out, bytes)
}

/// The line of one thread.
fn put_thread(
    alloc: Global,
    out: &mut Vec<u8>,
    number: u8,
    end: End,
    output: &[u8],
) -> Result<(), NoMemory>
    ensures { OnOk result (out.new.items ≡ out.old.items ++ thread_line_of number end output.now) }
{
    out.extend_from_slice(b"thread ")?;
    put_decimal(alloc, out, u64::from(number))?;
    out.extend_from_slice(b" ")?;
    put_end(alloc, out, end)?;
    out.extend_from_slice(b" out ")?;
    put_output(out, output)?;
    out.extend_from_slice(b"\n")?;
    Ok(())
}

/// The lines of all threads.
pub fn put_threads(alloc: Global, out: &mut Vec<u8>, machine: &Machine) -> Result<(), NoMemory>
    ensures { OnOk result (out.new.items ≡ out.old.items ++ thread_lines machine.now.threads) }
{
    for hart in 0..machine.thread_count() {
        put_thread(alloc, out, hart, machine.end(hart), machine.output(hart))?;
    }
    Ok(())
}
