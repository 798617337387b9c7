//! A memory blade: the images of its pages, and what a message does to them.

ghost use Rattle.std.specs.Prelude.{◌≡◌, ◌+◌, ◌<◌, ◌≤◌, length, replicate, slice_set, All, IfOk, IfSome, OnOk};
ghost use Rattle.page_image.specs.PageImage.{IsPageImage, zero_image};
ghost use Rattle.wire_msg.specs.WellFormed.{IsWellFormed};
ghost use Rattle.memory_blade.specs.MemoryBlade.{IsFor, image_at, with_zeros, answer_to, images_after};

use crate::zeros::{Stored, make_zero};
use mind_base::NoMemory;
use page_image::PageImage;
use std::alloc::Global;
use std::marker::Model;
use wire_msg::Msg;

/// The pages of a memory blade. Contracts see it as the list of their images, by physical numbers
/// from 0 on. A page that was not written has no image in memory. After `NoMemory` a blade is only to
/// be dropped.
#[derive(Debug, Drop)]
pub struct MemoryBlade {
    alloc: Global,
    images: Vec<Stored>,
}

impl Model for MemoryBlade {
    ghost use Rattle.std.specs.Prelude.{List, All};
    ghost use Rattle.page_image.specs.PageImage.{PageImageView, IsPageImage};
    ghost use Rattle.memory_blade.specs.Stored.{images_in};

    ghost Value = { List PageImageView };

    ghost view = { λ b. images_in b.images.items };

    ghost invariant = { λ b. All IsPageImage (images_in b.images.items) };
}

impl MemoryBlade {
    /// A blade of so many pages, all zero.
    pub fn new(alloc: Global, pages: u32) -> Result<MemoryBlade, NoMemory>
        ensures zero { IfOk result (λ blade. blade ≡ replicate pages zero_image) }
        ensures shape { IfOk result (λ blade. All IsPageImage blade) }
    {
        let mut images = Vec::with_capacity(alloc, pages as usize)?;
        for _ in 0..pages {
            images.push(None)?;
        }
        Ok(MemoryBlade { alloc, images })
    }

    /// Does what a `Read`, a `Write` or a `Zero` asks of pages of this blade. A `Read` is answered by
    /// the image of the page, the others by nothing.
    pub fn handle(&mut self, msg: Msg) -> Result<Option<Msg>, NoMemory>
        requires { IsFor (length self.old) msg }
        ensures answer { IfOk result (λ answer. answer ≡ answer_to self.old msg) }
        ensures after { OnOk result (self.new ≡ images_after self.old msg) }
        ensures length { length self.new ≡ length self.old }
        ensures shape { All IsPageImage self.new }

        // The answer is a well-formed message where the question is one.
        ensures formed { IsWellFormed msg → IfOk result (λ answer. IfSome answer IsWellFormed) }
    {
        match msg {
            Msg::Read { phys, blade, page } => {
                let image = self.read(phys)?;
                Ok(Some(Msg::Image { blade, page, image }))
            }
            Msg::Write { phys, image } => {
                self.write(phys, image)?;
                Ok(None)
            }
            Msg::Zero { phys, pages } => {
                self.zero(phys, pages);
                Ok(None)
            }
            _ => unreachable!(),
        }
    }

    /// A copy of the image of a page.
    fn read(&self, phys: u32) -> Result<PageImage, NoMemory>
        requires { phys < length self.now }
        ensures image { IfOk result (λ image. image ≡ image_at self.now phys) }
        ensures shape { IfOk result (λ image. IsPageImage image) }
        ensures all { All IsPageImage self.now }
    {
        match &self.images[phys as usize] {
            Some(image) => image.copy(),
            None => PageImage::zero(self.alloc),
        }
    }

    /// Puts an image in the place of a page's.
    fn write(&mut self, phys: u32, image: PageImage) -> Result<(), NoMemory>
        requires { phys < length self.old }
        ensures after { OnOk result (self.new ≡ slice_set self.old phys image) }
        ensures length { length self.new ≡ length self.old }
        ensures shape { All IsPageImage self.new }
    {
        // An image that is asked tells that it is one.
        let _tag = image.tag(0);
        let stored = Box::new(self.alloc, image)?;
        self.images[phys as usize] = Some(stored);
        Ok(())
    }

    /// Makes so many pages zero, from a page on.
    fn zero(&mut self, phys: u32, pages: u32)
        requires { phys + pages ≤ length self.old }
        ensures after { self.new ≡ with_zeros self.old phys pages }
        ensures length { length self.new ≡ length self.old }
        ensures shape { All IsPageImage self.new }
    {
        make_zero(&mut self.images, phys as usize, pages as usize)
    }
}
