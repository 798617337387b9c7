//! The plan of a rack, as its file describes it.

ghost use Rattle.std.specs.Prelude.{◌≡◌, IfOk};
ghost use Rattle.mind_base.specs.Plan.{image_place};

use crate::{Duplicate, Name, NoMemory, Perm, Sequence, Span, copies_of};
use std::alloc::Global;

/// One memory blade: the runs of pages that have their home there, and how many spare pages it has
/// behind them.
#[derive(Debug, Drop)]
pub struct MemoryPlan {
    pub homes: Sequence<Span>,
    pub spare: u32,
}

/// One program: the name of its file, and the byte address at which it stands, a multiple of 4.
#[derive(Debug, Drop)]
pub struct ImagePlan {
    pub name: Name,
    pub at: u32,
}

/// One thread: the compute blade that it runs on, its domain, the number of its image, and how many
/// stores its queue holds.
#[derive(Clone, Copy, Debug, PartialEq, Eq)]
pub struct ThreadPlan {
    pub blade: u8,
    pub domain: u8,
    pub image: u8,
    pub queue: u32,
}

/// A run of pages that is mapped from the start.
#[derive(Clone, Copy, Debug, PartialEq, Eq)]
pub struct MapPlan {
    pub span: Span,
    pub perm: Perm,
}

/// How an epoch judges the entries of the directory.
#[derive(Clone, Copy, Debug, PartialEq, Eq)]
pub enum PolicyKind {
    Threshold,
}

/// A rack, as its file describes it. `slots`, `protect` and `outliers` count entries of the
/// directory, of the table of permissions and of the table of moved blocks; `region` and `most` are
/// logarithms of numbers of pages; `frames` has the number of cached pages of each compute blade.
#[derive(Debug, Drop)]
pub struct RackPlan {
    pub slots: u32,
    pub protect: u32,
    pub outliers: u32,
    pub region: u8,
    pub most: u8,
    pub threshold: u32,
    pub policy: PolicyKind,
    pub frames: Sequence<u32>,
    pub memories: Sequence<MemoryPlan>,
    pub images: Sequence<ImagePlan>,
    pub threads: Sequence<ThreadPlan>,
    pub maps: Sequence<MapPlan>,
}

impl Duplicate for MemoryPlan {
    fn copy(&self, alloc: Global) -> Result<MemoryPlan, NoMemory> {
        let homes = self.homes.copied(alloc)?;
        Ok(MemoryPlan {
            homes,
            spare: self.spare,
        })
    }
}

impl Duplicate for ImagePlan {
    fn copy(&self, alloc: Global) -> Result<ImagePlan, NoMemory> {
        let name = self.name.copy(alloc)?;
        Ok(ImagePlan { name, at: self.at })
    }
}

impl RackPlan {
    /// An equal plan.
    pub fn copy(&self, alloc: Global) -> Result<RackPlan, NoMemory>
        ensures { IfOk result (λ plan. plan ≡ self.now) }
    {
        let frames = self.frames.copied(alloc)?;
        let memories = copies_of(alloc, self.memories.as_slice())?;
        let images = copies_of(alloc, self.images.as_slice())?;
        let threads = self.threads.copied(alloc)?;
        let maps = self.maps.copied(alloc)?;
        Ok(RackPlan {
            slots: self.slots,
            protect: self.protect,
            outliers: self.outliers,
            region: self.region,
            most: self.most,
            threshold: self.threshold,
            policy: self.policy,
            frames,
            memories,
            images,
            threads,
            maps,
        })
    }
}

/// Where image number `i` of a plan stands; 0 for one that the plan does not have.
pub fn image_place(images: &[ImagePlan], i: u8) -> u32
    ensures { result ≡ image_place images.now i }
{
    match images.get(usize::from(i)) {
        Some(image) => image.at,
        None => 0,
    }
}
