//! Plans and images of small racks.

ghost use Rattle.std.specs.Prelude.{IfOk};
ghost use Rattle.mind_base.specs.Fit.{IsFit, FitsImage, FitImages};

use mind_base::{Image, ImagePlan, RackPlan};
use rack_file::{image_of, rack_of};
use std::alloc::Global;
use std::test::Fail;

/// Two compute blades, two memory blades with one home each, two images, two threads, one map.
pub const BASE: &str =
    "format = 1\nslots = 4\nprotect = 8\noutliers = 2\nregion = 0\nmost = 9\nthreshold = 0\n[[blade]]\nframes = 2\n[[blade]]\nframes = 2\n[[memory]]\nspare = 4\nhomes = [{ domain = 0, page = 0, pages = 16 }]\n[[memory]]\nspare = 4\nhomes = [{ domain = 0, page = 16, pages = 16 }]\n[[image]]\nname = \"a.bin\"\nat = 0\n[[image]]\nname = \"b.bin\"\nat = 0\n[[thread]]\nblade = 0\ndomain = 0\nimage = 0\nqueue = 2\n[[thread]]\nblade = 1\ndomain = 0\nimage = 1\nqueue = 2\n[[map]]\ndomain = 0\npage = 1\npages = 2\nperm = \"rw\"\n";

/// The plan of a rack file.
pub fn plan_in(alloc: Global, rack: &str) -> Result<RackPlan, Fail>
    ensures { IfOk result (λ plan. IsFit plan) }
{
    match rack_of(alloc, rack.as_bytes()) {
        Ok(plan) => Ok(plan),
        Err(_) => Err(Fail::from("no plan")),
    }
}

fn image_in(alloc: Global, plan: &ImagePlan, program: &[u8]) -> Result<Image, Fail>
    ensures { IfOk result (λ image. FitsImage plan.now image) }
{
    match image_of(plan, Vec::from_slice(alloc, program)?) {
        Ok(image) => Ok(image),
        Err(_) => Err(Fail::from("no image")),
    }
}

/// The images of one plan or two, which are these programs in order.
pub fn images_in(alloc: Global, plans: &[ImagePlan], programs: &[&[u8]]) -> Result<Vec<Image>, Fail>
    ensures { IfOk result (λ images. FitImages plans.now images.items) }
{
    match (plans, programs) {
        ([plan], [program]) => {
            let image = image_in(alloc, plan, program)?;
            Ok(vec![in alloc; image]?)
        }
        ([low, high], [first, second]) => {
            let first = image_in(alloc, low, first)?;
            let second = image_in(alloc, high, second)?;
            Ok(vec![in alloc; first, second]?)
        }
        _ => Err(Fail::from("neither one image nor two")),
    }
}
