//! The image of a program: the words that it starts with.

ghost use Rattle.std.specs.Prelude.{◌≡◌, IfOk};

use crate::{Duplicate, NoMemory, Sequence};
use std::alloc::Global;

/// A program as it lies in a thread's image: its bytes, the first at the address `at`.
#[derive(Debug, Drop)]
pub struct Image {
    pub at: u32,
    pub bytes: Sequence<u8>,
}

impl Duplicate for Image {
    fn copy(&self, alloc: Global) -> Result<Image, NoMemory> {
        let bytes = self.bytes.copied(alloc)?;
        Ok(Image { at: self.at, bytes })
    }
}
