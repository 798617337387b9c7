//! The image of a program, from the bytes of its file.

ghost use Rattle.std.specs.Prelude.{◌≡◌, IfOk};
ghost use Rattle.mind_base.specs.Fit.{FitsImage};
ghost use Rattle.rack_file.specs.Images.{image_bytes_judged};

use mind_base::{Image, ImagePlan, Sequence};

/// Why bytes are no image: their number, or that they pass the end of the 2^32 addresses.
#[derive(Clone, Copy, Debug, PartialEq, Eq)]
pub enum ImageFault {
    Length,
    End,
}

/// The image of a plan. An image has 4 to 65,536 bytes, a multiple of 4. Takes no memory.
pub fn image_of(plan: &ImagePlan, bytes: Vec<u8>) -> Result<Image, ImageFault>
    ensures judged { result ≡ image_bytes_judged plan.now bytes.items }
    ensures fits { IfOk result (λ image. FitsImage plan.now image) }
{
    let length = bytes.len();
    if length < 4 || length > 65536 || length % 4 != 0 {
        return Err(ImageFault::Length);
    }
    if u64::from(plan.at) + length as u64 > 4294967296 {
        return Err(ImageFault::End);
    }
    Ok(Image {
        at: plan.at,
        bytes: Sequence::from_vec(bytes),
    })
}
