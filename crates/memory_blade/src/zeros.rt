//! The images that a memory blade keeps: none for a page that is zero since it was last made so.

ghost use Rattle.std.specs.Prelude.{◌≡◌, ◌+◌, ◌≤◌, length, All};
ghost use Rattle.page_image.specs.PageImage.{IsPageImage};
ghost use Rattle.memory_blade.specs.MemoryBlade.{with_zeros};
ghost use Rattle.memory_blade.specs.Stored.{images_in};

use page_image::PageImage;

/// The image of a page that was written; None for one that is zero.
pub(crate) type Stored = Option<Box<PageImage>>;

/// Puts the zero image in the place of `count` images, from number `first` on.
pub(crate) fn make_zero(images: &mut Vec<Stored>, first: usize, count: usize)
    requires { first + count ≤ length images.old.items }
    ensures after { images_in images.new.items ≡ with_zeros (images_in images.old.items) first count }
    ensures length { length images.new.items ≡ length images.old.items }
    ensures shape { All IsPageImage (images_in images.old.items) → All IsPageImage (images_in images.new.items) }
{
    for i in 0..count {
        images[first + i] = None;
    }
}
