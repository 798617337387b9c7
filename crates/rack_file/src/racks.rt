//! The plan that a rack file describes, or its first fault.

ghost use Rattle.std.specs.Prelude.{◌≡◌, ◌≤◌, [], IfOk};
ghost use Rattle.mind_base.specs.Fit.{IsFit};
ghost use Rattle.toml.specs.View.{table_view};
ghost use Rattle.rack_file.specs.Racks.{document_of, rack_judged, top_judged};
ghost use Rattle.rack_file.specs.Tables.{threads_judged};
ghost use Rattle.rack_file.specs.Judged.{GivesJudged, GivesDocument};

use crate::arrays::elements_in;
use crate::homes::memories_in;
use crate::maps::maps_in;
use crate::refusals::{Path, RackFault, RackRefusal};
use crate::settings::settings_in;
use crate::tables::{BladeReader, ImageReader, ThreadReader};
use mind_base::{RackPlan, Sequence, ThreadPlan};
use std::alloc::Global;
use toml::Table;

fn no_document(alloc: Global) -> RackRefusal
    ensures { result ≡ RackRefusal.Refused RackFault.Toml [] }
{
    RackRefusal::Refused {
        what: RackFault::Toml,
        path: Path::from_text(String::new(alloc)),
    }
}

/// The document that the bytes spell.
fn document_from(alloc: Global, bytes: &[u8]) -> Result<Table, RackRefusal>
    ensures { GivesDocument result (document_of bytes.now) }
{
    let text = match std::str::from_utf8(bytes) {
        Ok(text) => text,
        Err(_) => return Err(no_document(alloc)),
    };
    match toml::table_from_str(alloc, text) {
        Ok(document) => Ok(document),
        Err(e) => if e.is_memory() {
            Err(RackRefusal::NoMemory)
        } else {
            Err(no_document(alloc))
        },
    }
}

/// The threads of a rack with so many blades and images.
fn threads_in(
    alloc: Global,
    document: &Table,
    blades: usize,
    images: usize,
) -> Result<Sequence<ThreadPlan>, RackRefusal>
    requires blades { blades ≤ 8 }
    requires images { images ≤ 16 }
    ensures { GivesJudged (λ xs. xs) result (threads_judged blades images (table_view document.now)) }
{
    let reader = ThreadReader {
        blades: blades as u8,
        images: images as u8,
    };
    elements_in(alloc, &reader, document, "thread", 64)
}

/// The rack that a document describes.
fn rack_in(alloc: Global, document: &Table) -> Result<RackPlan, RackRefusal>
    ensures { GivesJudged (λ plan. plan) result (top_judged (table_view document.now)) }
{
    let settings = match settings_in(alloc, document) {
        Ok(settings) => settings,
        Err(e) => return Err(e),
    };
    let frames = match elements_in(alloc, &BladeReader, document, "blade", 8) {
        Ok(frames) => frames,
        Err(e) => return Err(e),
    };
    let memories = match memories_in(alloc, document) {
        Ok(memories) => memories,
        Err(e) => return Err(e),
    };
    let images = match elements_in(alloc, &ImageReader, document, "image", 16) {
        Ok(images) => images,
        Err(e) => return Err(e),
    };
    let threads = match threads_in(alloc, document, frames.len(), images.len()) {
        Ok(threads) => threads,
        Err(e) => return Err(e),
    };
    match maps_in(alloc, document, memories.as_slice(), settings.protect) {
        Ok(maps) => Ok(RackPlan {
            frames,
            memories,
            images,
            threads,
            maps,
            ..settings
        }),
        Err(e) => Err(e),
    }
}

/// Reads a rack file. What is refused is the first thing that is wrong, in the order in which the
/// tables and their keys are listed.
pub fn rack_of(alloc: Global, bytes: &[u8]) -> Result<RackPlan, RackRefusal>
    ensures judged { GivesJudged (λ plan. plan) result (rack_judged (document_of bytes.now)) }
    ensures fit { IfOk result (λ plan. IsFit plan) }
{
    let document = document_from(alloc, bytes)?;
    let plan = rack_in(alloc, &document)?;
    Ok(plan)
}
