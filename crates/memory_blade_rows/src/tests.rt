//! Messages to a memory blade, by rows.

ghost use Rattle.std.specs.Prelude.{◌≡◌, ◌<◌, length};
ghost use Rattle.memory_blade.specs.MemoryBlade.{IsFor};

use memory_blade::MemoryBlade;
use mind_base::Page;
use page_image::PageImage;
use std::alloc::Global;
use std::process::Abort;
use std::test::Fail;
use wire_msg::Msg;

/// An image with this first word and first tag.
fn image(alloc: Global, word: u32, tag: u64) -> Result<PageImage, Fail> {
    let mut image = PageImage::zero(alloc)?;
    image.store(0, 4, word, tag);
    Ok(image)
}

/// The answer is for blade 3 and page 5 of domain 2, and has an image with this first word and first
/// tag.
fn is_image(answer: &Option<Msg>, wanted: (u32, u64)) -> bool {
    match answer {
        Some(Msg::Image { blade, page, image }) => {
            let is_for = *blade == Some(3) && *page == Page::of(2, 0x5000);
            is_for && (image.load(0, 4), image.tag(0)) == wanted
        }
        _ => false,
    }
}

/// A `Read` of the page is answered by an image with this first word and first tag.
fn holds(
    rt: &impl Abort,
    blade: &mut MemoryBlade,
    phys: u32,
    wanted: (u32, u64),
) -> Result<(), Fail>
    requires { phys < length blade.old }
    ensures { length blade.new ≡ length blade.old }
{
    let question = Msg::Read {
        phys,
        blade: Some(3),
        page: Page::of(2, 0x5000),
    };
    let answer = blade.handle(question)?;
    assert!(rt; is_image(&answer, wanted), "page {phys}");
    Ok(())
}

/// What the message leaves in the three pages, and that it is not answered.
fn leaves(
    rt: &impl Abort,
    blade: &mut MemoryBlade,
    msg: Msg,
    wanted: [(u32, u64); 3],
) -> Result<(), Fail>
    requires three { length blade.old ≡ 3 }
    requires inside { IsFor 3 msg }
    ensures { length blade.new ≡ 3 }
{
    assert!(rt; blade.handle(msg)?.is_none());
    holds(rt, blade, 0, wanted[0])?;
    holds(rt, blade, 1, wanted[1])?;
    holds(rt, blade, 2, wanted[2])
}

#[test]
fn each_message_leaves_its_pages(rt: HostRuntime) -> Result<(), Fail> {
    let alloc = rt.alloc();
    let mut blade = MemoryBlade::new(alloc, 3)?;
    let none = (0, 0);
    let first = Msg::Write {
        phys: 0,
        image: image(alloc, 7, 1)?,
    };
    leaves(&rt, &mut blade, first, [(7, 1), none, none])?;
    let second = Msg::Write {
        phys: 1,
        image: image(alloc, 8, 2)?,
    };
    leaves(&rt, &mut blade, second, [(7, 1), (8, 2), none])?;
    let third = Msg::Write {
        phys: 2,
        image: image(alloc, 9, 3)?,
    };
    leaves(&rt, &mut blade, third, [(7, 1), (8, 2), (9, 3)])?;
    let first_two = Msg::Zero { phys: 0, pages: 2 };
    leaves(&rt, &mut blade, first_two, [none, none, (9, 3)])?;
    let last = Msg::Zero { phys: 2, pages: 1 };
    leaves(&rt, &mut blade, last, [none, none, none])
}
