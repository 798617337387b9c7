//! Passes over the requests until one changes nothing.

ghost use Rattle.std.specs.Prelude.{◌≡◌, ◌<◌, Err, Some, slice_get, IfOk, OnOk};
ghost use Rattle.mind_base.specs.declared.failures.Stop.TheVariants.{Spent};
ghost use Rattle.switch_core.specs.Invariant.{IsSpent, IsSwitch};
ghost use Rattle.switch_core.specs.Sending.{Start, Comes, KeepsStart, start_at};
ghost use Rattle.switch_core.specs.Serving.{Serves, one_pass, treated_next};
ghost use Rattle.switch_core.specs.Standing.{PassGoesOn, PassTells};
ghost use Rattle.switch_core.specs.Switch.{SwitchEffect};

use super::SwitchCore;
use crate::messages::Out;
use crate::stands::Stand;
use crate::visits::Visit;
use mind_base::{Log, Stop};

impl SwitchCore {
    /// The request that comes next in a pass is treated.
    fn treat_next(&mut self, stand: &mut Stand, out: &mut Out, log: &mut Log) -> Result<(), Stop>
        ensures goes_on { OnOk result (PassGoesOn treated_next self.old stand.old out.old.items log.old.notes self.new stand.new out.new.items log.new.notes) }
        ensures keeps { KeepsStart (start_at self.old out.old.items log.old.notes) self.new out.new.items log.new.notes }
        ensures spent { result ≡ Err Spent → IsSpent self.new }
    {
        let count = self.requests.len();
        if stand.at >= count {
            return Ok(());
        }
        let mut visit = Visit {
            request: self.requests.get(stand.at),
            stand: *stand,
        };
        self.treat(&mut visit, out, log)?;
        *stand = visit.stand;
        Ok(())
    }

    /// One pass over all requests in order of arrival; whether it changed anything.
    fn pass(&mut self, out: &mut Out, log: &mut Log) -> Result<bool, Stop>
        ensures comes { IfOk result (λ changed. Comes (start_at self.old out.old.items log.old.notes) (one_pass self.old) self.new out.new.items log.new.notes) }
        ensures tells { IfOk result (λ changed. PassTells changed self.old (one_pass self.old)) }
        ensures was { OnOk result (IsSwitch self.old) }
        ensures keeps { KeepsStart (start_at self.old out.old.items log.old.notes) self.new out.new.items log.new.notes }
        ensures spent { result ≡ Err Spent → IsSpent self.new }
    {
        let mut left = self.requests.len();
        let mut stand = Stand {
            at: 0,
            blocked: false,
            changed: false,
        };
        while left > 0 {
            self.treat_next(&mut stand, out, log)?;
            left -= 1;
        }
        Ok(stand.changed)
    }

    /// Passes over the requests until one changes nothing.
    pub(super) fn serve(&mut self, out: &mut Out, log: &mut Log) -> Result<(), Stop>
        ensures serves { OnOk result ((start : Start) → (first : SwitchEffect) → Comes start first self.old out.old.items log.old.notes
            → (last : SwitchEffect) × Serves first last × Comes start last self.new out.new.items log.new.notes) }
        ensures switch { OnOk result (IsSwitch self.new) }
        ensures keeps { KeepsStart (start_at self.old out.old.items log.old.notes) self.new out.new.items log.new.notes }
        ensures spent { result ≡ Err Spent → IsSpent self.new }
    {
        let mut changed = true;
        while changed {
            changed = self.pass(out, log)?;
        }
        Ok(())
    }
}
