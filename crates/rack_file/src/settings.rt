//! The numbers and words of the top table.

ghost use Rattle.std.specs.Prelude.{◌≡◌, ◌≤◌, codes, IfOk};
ghost use Rattle.std.specs.Str.{bytes_eq};
ghost use Rattle.toml.specs.Data.{get_member};
ghost use Rattle.toml.specs.View.{view, table_view};
ghost use Rattle.mind_base.specs.declared.plans.PolicyKind.TheVariants.{Threshold};
ghost use Rattle.rack_file.specs.Keys.{key_judged, keys_judged, known_judged, integer_at, value_judged, under};
ghost use Rattle.rack_file.specs.Tables.{policy_key, most_key, top_keys, names_in};
ghost use Rattle.rack_file.specs.Settings.{settings_at, settings_judged};
ghost use Rattle.rack_file.specs.Judged.{GivesJudged, ReadsAs};

use crate::keys::{member_at, number_in};
use crate::refusals::{RackFault, RackRefusal, refused_key};
use crate::sections::{Section, check_known};
use mind_base::{PolicyKind, RackPlan, Sequence};
use std::alloc::Global;
use toml::Table;

fn policy_in(alloc: Global, table: &Table) -> Result<PolicyKind, RackRefusal>
    ensures { ReadsAs (λ kind. kind) result (key_judged (codes "") (table_view table.now) policy_key) Threshold }
{
    let value = match member_at(table, "policy") {
        Some(value) => value,
        None => return Ok(PolicyKind::Threshold),
    };
    match value.as_str() {
        Some(text) => if text == "threshold" {
            Ok(PolicyKind::Threshold)
        } else {
            Err(refused_key(alloc, RackFault::Limit, "", "policy"))
        },
        None => Err(refused_key(alloc, RackFault::Kind, "", "policy")),
    }
}

/// The highest size of a block of the directory, at least that of the first ones.
fn most_in(alloc: Global, table: &Table, region: u32) -> Result<u32, RackRefusal>
    requires { region ≡ integer_at (codes "region") (table_view table.now) }
    ensures reads { ReadsAs (λ n. n) result (key_judged (codes "") (table_view table.now) most_key) (integer_at (codes "most") (table_view table.now)) }
    ensures within { IfOk result (λ n. n ≤ 9) }
{
    number_in(alloc, "", table, "most", region, 9)
}

/// The plan of the plain keys of the top table, without its arrays.
fn settings_from(alloc: Global, table: &Table) -> Result<RackPlan, RackRefusal>
    ensures { ReadsAs (λ settings. settings) result (keys_judged (codes "") (table_view table.now) top_keys) (settings_at (table_view table.now)) }
{
    let _format = number_in(alloc, "", table, "format", 1, 1)?;
    let slots = number_in(alloc, "", table, "slots", 1, 4096)?;
    let protect = number_in(alloc, "", table, "protect", 1, 4096)?;
    let outliers = number_in(alloc, "", table, "outliers", 0, 1024)?;
    let region = number_in(alloc, "", table, "region", 0, 9)?;
    let most = most_in(alloc, table, region)?;
    let threshold = number_in(alloc, "", table, "threshold", 0, 1000000)?;
    let policy = policy_in(alloc, table)?;
    Ok(RackPlan {
        slots,
        protect,
        outliers,
        region: region as u8,
        most: most as u8,
        threshold,
        policy,
        frames: Sequence::new(alloc),
        memories: Sequence::new(alloc),
        images: Sequence::new(alloc),
        threads: Sequence::new(alloc),
        maps: Sequence::new(alloc),
    })
}

/// The plan of the plain keys of the top table, which has no others but its arrays.
pub(crate) fn settings_in(alloc: Global, table: &Table) -> Result<RackPlan, RackRefusal>
    ensures { GivesJudged (λ settings. settings) result (settings_judged (table_view table.now)) }
{
    let settings = settings_from(alloc, table)?;
    check_known(alloc, Section::Top, "", table)?;
    Ok(settings)
}
