//! The core of a hart: its registers, where it stands, and its output.

ghost use Rattle.std.specs.Prelude.{◌≡◌, OnOk, OnErr};
ghost use Rattle.hart_effect.specs.Core.{first_core, core_continued};
ghost use Rattle.hart_effect.specs.Work.{core_changed, PutsOutByte};

use crate::works::{Change, Continued};
use hart_core::Regs;
use mind_base::{End, NoMemory};
use std::alloc::Global;
use std::marker::Model;

/// The core of a thread: its registers, where it stands, and the bytes that it put out.
#[derive(Drop)]
pub struct Core {
    regs: Regs,
    end: End,
    output: Vec<u8>,
}

impl Model for Core {
    ghost use Rattle.hart_effect.specs.Core.{CoreView};

    ghost Value = { CoreView };

    ghost view = { λ c. record { regs = c.regs; end = c.end; output = c.output.items } };
}

impl Core {
    /// A core that runs at `pc`. Takes no memory.
    pub fn new(alloc: Global, pc: u32) -> Core
        ensures { result ≡ first_core pc }
    {
        Core {
            regs: Regs::new(),
            end: End::Running { pc },
            output: Vec::new(alloc),
        }
    }

    pub fn regs(&self) -> &Regs
        ensures { result.now ≡ self.now.regs }
    {
        &self.regs
    }

    /// Where the thread stands.
    pub fn end(&self) -> End
        ensures { result ≡ self.now.end }
    {
        self.end
    }

    /// The bytes that the thread put out.
    pub fn output(&self) -> &[u8]
        ensures { result.now ≡ self.now.output }
    {
        self.output.as_slice()
    }

    /// Changes as it is said. Only to put out a byte takes memory; where there is none, the core stays as it
    /// was.
    pub fn apply(&mut self, change: Change) -> Result<(), NoMemory>
        ensures ok { OnOk result (self.new ≡ core_changed change self.old) }
        ensures cause { OnErr result (PutsOutByte change) }
        ensures err { OnErr result (self.new ≡ self.old) }
    {
        match change {
            Change::Continues { next } => self.go_on(next),
            Change::PutsOut { byte, pc } => {
                self.output.push(byte)?;
                self.end = End::Running { pc };
            }
            Change::Exits { value } => self.end = End::Exit { value },
            Change::Faults { kind, value, pc } => self.end = End::Fault { kind, value, pc },
        }
        Ok(())
    }

    /// Goes on behind an instruction.
    pub fn go_on(&mut self, next: Continued)
        ensures { self.new ≡ core_continued next self.old }
    {
        self.regs.set(next.rd, next.value);
        self.end = End::Running { pc: next.pc };
    }
}
