//! The switch: its tables, its directory and its requests, and what a message does.

ghost use Rattle.std.specs.Prelude.{◌≡◌, ◌↔◌, ◌+◌, ◌≤◌, [], length, IfOk, IsTrue, Err, OnErr, OnOk};
ghost use Rattle.mind_base.specs.Fit.{IsFit};
ghost use Rattle.mind_base.specs.Permission.{permission_of};
ghost use Rattle.mind_base.specs.declared.failures.Stop.TheVariants.{Spent};
ghost use Rattle.protect_table.specs.Protect.{permission_at};
ghost use Rattle.switch_core.specs.Handling.{IsQuietSwitch, MayComeToSwitch, Received};
ghost use Rattle.switch_core.specs.Invariant.{IsSpent, IsSwitch};
ghost use Rattle.switch_core.specs.Sending.{Remains, start_at};
ghost use Rattle.wire_msg.specs.WellFormed.{FieldsAgree};

mod changes;
mod coming;
mod handling;
mod serving;
mod treating;

use crate::endings::is_idle;
use mind_base::{LinkName, Log, NoMemory, RackPlan, Stop};
use protect_table::Protect;
use range_translate::Table;
use region_directory::Directory;
use request_list::Requests;
use std::alloc::Global;
use std::marker::Model;
use wire_msg::Msg;

/// The switch: where pages lie and what their domains may do with them, which blades hold pages of
/// which blocks, and what blades have asked for. It keeps a copy of the plan that it was made from.
#[derive(Drop)]
pub struct SwitchCore {
    alloc: Global,
    plan: RackPlan,
    table: Table,
    protect: Protect,
    directory: Directory,
    requests: Requests,
    last: u32,
}

impl Model for SwitchCore {
    ghost use Rattle.std.specs.Coded.{codes};
    ghost use Rattle.protect_table.specs.Protect.{protect_code};
    ghost use Rattle.switch_core.specs.Switch.{SwitchView};

    ghost Value = { SwitchView };

    ghost coded = { Prim.hlevel (codes, protect_code) };

    ghost use Rattle.switch_core.specs.Invariant.{IsSwitch};

    ghost view = { λ s. record { plan = s.plan; table = s.table; protect = s.protect; directory = s.directory; requests = s.requests; last = s.last } };

    ghost invariant = { λ s. IsSwitch (record { plan = s.plan; table = s.table; protect = s.protect; directory = s.directory; requests = s.requests; last = s.last }) };
}

impl SwitchCore {
    /// A switch of this plan: pages lie at their homes, its maps say what domains may do with them, and
    /// nobody holds a page or has asked for one.
    pub fn new(alloc: Global, plan: &RackPlan) -> Result<SwitchCore, NoMemory>
        requires { IsFit plan.now }
        ensures plan { IfOk result (λ switch. switch.plan ≡ plan.now) }
        ensures table { IfOk result (λ switch. switch.table ≡ record { homes = plan.now.memories; slots = plan.now.outliers; outliers = [] }) }
        ensures protect { IfOk result (λ switch. permission_at switch.protect ≡ permission_of plan.now.maps) }
        ensures slots { IfOk result (λ switch. switch.protect.slots ≡ plan.now.protect) }
        ensures directory { IfOk result (λ switch. switch.directory ≡ record { slots = plan.now.slots; most = plan.now.most; entries = [] }) }
        ensures requests { IfOk result (λ switch. switch.requests ≡ []) }
        ensures last { IfOk result (λ switch. switch.last ≡ 0) }
        ensures switch { IfOk result IsSwitch }
    {
        let table = Table::new(alloc, plan.memories.as_slice(), plan.outliers)?;
        let protect = Protect::of(alloc, plan.protect, plan.maps.as_slice())?;
        let directory = Directory::new(alloc, plan.slots, plan.most)?;
        let plan = plan.copy(alloc)?;
        Ok(SwitchCore {
            alloc,
            plan,
            table,
            protect,
            directory,
            requests: Requests::new(alloc),
            last: 0,
        })
    }

    /// Takes a message from a link, does what it asks, and serves the waiting requests. After `Spent` a
    /// transition was wanted, and the last one has the last number.
    pub fn receive(
        &mut self,
        from: LinkName,
        msg: Msg,
        out: &mut Vec<(LinkName, Msg)>,
        log: &mut Log,
    ) -> Result<(), Stop>
        requires may { MayComeToSwitch self.old from msg }
        requires fields { FieldsAgree msg }
        ensures received { Received result from msg (start_at self.old out.old.items log.old.notes) self.new out.new.items log.new.notes }
        ensures remains { Remains self.old self.new }
        ensures switch { OnOk result (IsSwitch self.new) }
        ensures spent { result ≡ Err Spent
            → (self.new.last ≡ 4294967295) × (4294967295 ≤ self.old.last + self.old.directory.slots) }
    {
        self.handle(&from, msg, out, log)?;
        self.serve(out, log)
    }

    /// Whether no request waits or is fetched, and no transition is under way.
    pub fn quiet(&self) -> bool
        ensures { IsTrue result ↔ IsQuietSwitch self.now }
    {
        self.requests.len() == 0 && is_idle(&self.directory)
    }

    /// The number of the next transition. `Spent` exactly where the last one had the last number.
    fn next_number(&self) -> Result<u32, Stop>
        ensures ok { IfOk result (λ number. number ≡ self.now.last + 1) }
        ensures spent { OnErr result (IsSpent self.now) }
    {
        if self.last == u32::MAX {
            return Err(Stop::Spent);
        }
        Ok(self.last + 1)
    }
}
