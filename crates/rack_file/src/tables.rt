//! The tables of a rack file, read into their parts of the plan.

ghost use Rattle.std.specs.Prelude.{◌≡◌, ◌≤◌, ◌+◌, ◌-◌, ◌<◌, codes, IfOk};
ghost use Rattle.std.specs.Str.{bytes_eq};
ghost use Rattle.toml.specs.View.{view, table_view};
ghost use Rattle.mind_base.specs.declared.plans.PolicyKind.TheVariants.{Threshold};
ghost use Rattle.rack_file.specs.Keys.{key_judged, keys_judged, integer_at, text_at};
ghost use Rattle.rack_file.specs.Tables.{pages_key, span_keys, span_at, at_key, name_key, perm_key, perm_in_file, policy_key, most_key, top_keys, blade_judged, image_judged, thread_judged, thread_keys, thread_at};
ghost use Rattle.rack_file.specs.Judged.{GivesJudged, ReadsAs};

use crate::arrays::ElementReader;
use crate::keys::{natural_in, number_in, table_in, text_in};
use crate::refusals::{RackFault, RackRefusal, refused_key};
use crate::sections::{Section, check_known};
use mind_base::{ImagePlan, Name, Perm, Span, ThreadPlan};
use std::alloc::Global;
use toml::{Table, Value};

/// The number of pages of a run from the page `base` on, which ends inside its domain.
fn pages_in(alloc: Global, path: &str, table: &Table, base: u32) -> Result<u32, RackRefusal>
    requires { base ≡ integer_at (codes "page") (table_view table.now) }
    ensures reads { ReadsAs (λ n. n) result (key_judged path.now (table_view table.now) pages_key) (integer_at (codes "pages") (table_view table.now)) }
    ensures within { IfOk result (λ n. (1 ≤ n) × (n ≤ 4096) × (base + n ≤ 1048576)) }
{
    match natural_in(alloc, path, table, "pages") {
        Err(e) => Err(e),
        Ok(Some(n)) => if 1 <= n && n <= 4096 && u64::from(base) + n <= 1048576 {
            Ok(n as u32)
        } else {
            Err(refused_key(alloc, RackFault::Limit, path, "pages"))
        },
        Ok(None) => Err(refused_key(alloc, RackFault::Limit, path, "pages")),
    }
}

/// The run of pages that a table names.
pub(crate) fn span_in(alloc: Global, path: &str, table: &Table) -> Result<Span, RackRefusal>
    ensures { ReadsAs (λ span. span) result (keys_judged path.now (table_view table.now) span_keys) (span_at (table_view table.now)) }
{
    let domain = number_in(alloc, path, table, "domain", 0, 15)?;
    let base = number_in(alloc, path, table, "page", 0, 1048575)?;
    let pages = pages_in(alloc, path, table, base)?;
    Ok(Span {
        domain: domain as u8,
        base,
        pages,
    })
}

/// Reads the number of frames of a blade.
pub(crate) struct BladeReader;

impl ElementReader for BladeReader {
    type Element = u32;

    ghost judged = { λ reader. blade_judged };

    fn element_in(&self, alloc: Global, path: &str, value: &Value) -> Result<u32, RackRefusal> {
        let table = table_in(alloc, path, value)?;
        let frames = number_in(alloc, path, table, "frames", 1, 1024)?;
        check_known(alloc, Section::Blade, path, table)?;
        Ok(frames)
    }
}

/// The name of an image's file.
fn name_in(alloc: Global, path: &str, table: &Table) -> Result<Name, RackRefusal>
    ensures { ReadsAs (λ name. name) result (key_judged path.now (table_view table.now) name_key) (text_at (codes "name") (table_view table.now)) }
{
    let text = text_in(alloc, path, table, "name")?;
    match Name::of(alloc, text) {
        Ok(Some(name)) => Ok(name),
        Ok(None) => Err(refused_key(alloc, RackFault::Limit, path, "name")),
        Err(_) => Err(RackRefusal::NoMemory),
    }
}

/// The address at which an image stands.
fn address_in(alloc: Global, path: &str, table: &Table) -> Result<u32, RackRefusal>
    ensures { ReadsAs (λ n. n) result (key_judged path.now (table_view table.now) at_key) (integer_at (codes "at") (table_view table.now)) }
{
    match natural_in(alloc, path, table, "at") {
        Err(e) => Err(e),
        Ok(Some(n)) => if n <= 4294967292 && n % 4 == 0 {
            Ok(n as u32)
        } else {
            Err(refused_key(alloc, RackFault::Limit, path, "at"))
        },
        Ok(None) => Err(refused_key(alloc, RackFault::Limit, path, "at")),
    }
}

/// Reads an image's plan.
pub(crate) struct ImageReader;

impl ElementReader for ImageReader {
    type Element = ImagePlan;

    ghost judged = { λ reader. image_judged };

    fn element_in(
        &self,
        alloc: Global,
        path: &str,
        value: &Value,
    ) -> Result<ImagePlan, RackRefusal> {
        let table = table_in(alloc, path, value)?;
        let name = name_in(alloc, path, table)?;
        let at = address_in(alloc, path, table)?;
        check_known(alloc, Section::Image, path, table)?;
        Ok(ImagePlan { name, at })
    }
}

/// Reads a thread's plan, where there are so many blades and images, both at least one.
#[derive(Clone, Copy, Debug, PartialEq, Eq)]
pub(crate) struct ThreadReader {
    pub blades: u8,
    pub images: u8,
}

impl ElementReader for ThreadReader {
    type Element = ThreadPlan;

    ghost judged = { λ reader. thread_judged reader.blades reader.images };

    fn element_in(
        &self,
        alloc: Global,
        path: &str,
        value: &Value,
    ) -> Result<ThreadPlan, RackRefusal> {
        let table = table_in(alloc, path, value)?;
        let plan = thread_from(alloc, path, table, *self)?;
        check_known(alloc, Section::Thread, path, table)?;
        Ok(plan)
    }
}

/// The keys of a thread's table.
fn thread_from(
    alloc: Global,
    path: &str,
    table: &Table,
    named: ThreadReader,
) -> Result<ThreadPlan, RackRefusal>
    ensures { ReadsAs (λ plan. plan) result (keys_judged path.now (table_view table.now) (thread_keys named.blades named.images)) (thread_at (table_view table.now)) }
{
    let last_blade = u32::from(named.blades.saturating_sub(1));
    let last_image = u32::from(named.images.saturating_sub(1));
    let blade = number_in(alloc, path, table, "blade", 0, last_blade)?;
    let domain = number_in(alloc, path, table, "domain", 0, 15)?;
    let image = number_in(alloc, path, table, "image", 0, last_image)?;
    let queue = number_in(alloc, path, table, "queue", 1, 64)?;
    Ok(ThreadPlan {
        blade: blade as u8,
        domain: domain as u8,
        image: image as u8,
        queue,
    })
}

/// The permission of a map.
pub(crate) fn perm_in(alloc: Global, path: &str, table: &Table) -> Result<Perm, RackRefusal>
    ensures { ReadsAs (λ perm. perm) result (key_judged path.now (table_view table.now) perm_key) (perm_in_file (text_at (codes "perm") (table_view table.now))) }
{
    let text = text_in(alloc, path, table, "perm")?;
    if text == "rw" {
        Ok(Perm::Rw)
    } else if text == "r" {
        Ok(Perm::R)
    } else {
        Err(refused_key(alloc, RackFault::Limit, path, "perm"))
    }
}
