//! The image of a page: 4096 bytes, and the tag of each 64 of them.

ghost use Rattle.std.specs.Prelude.{◌≡◌, ◌++◌, ◌<◌, ◌↔◌, length, slice_index, Some, IsSome, IfSome, IfOk, OnOk, OnErr};
ghost use Rattle.page_image.specs.PageImage.{PageImageView, IsPageImage, IsInside, number_at, tag_at, image_after, zero_image, spelling_of};

use crate::tags::{append_tags, tags_of};
use mind_base::NoMemory;
use std::alloc::Global;
use std::marker::Model;

/// The image of a page: 4096 bytes, and a tag of 64 bits for each of its 64 granules of 64 bytes.
#[derive(Debug, Drop)]
pub struct PageImage {
    bytes: Vec<u8>,
    tags: Vec<u64>,
}

impl Model for PageImage {
    ghost use Rattle.page_image.specs.PageImage.{PageImageView, IsPageImage};

    ghost Value = { PageImageView };

    ghost view = { λ p. record { bytes = p.bytes.items; tags = p.tags.items } };

    ghost invariant = { λ p. IsPageImage (record { bytes = p.bytes.items; tags = p.tags.items }) };
}

impl PageImage {
    /// The image whose bytes and tags are all zero.
    pub fn zero(alloc: Global) -> Result<PageImage, NoMemory>
        ensures zero { IfOk result (λ image. image ≡ zero_image) }
        ensures shape { IfOk result (λ image. IsPageImage image) }
    {
        let bytes = vec![in alloc; 0u8; 4096]?;
        let tags = vec![in alloc; 0u64; 64]?;
        Ok(PageImage { bytes, tags })
    }

    /// An equal image.
    pub fn copy(&self) -> Result<PageImage, NoMemory>
        ensures same { IfOk result (λ image. image ≡ self.now) }
        ensures shape { IfOk result (λ image. IsPageImage image) }
    {
        let alloc = *self.bytes.allocator();
        let bytes = Vec::from_slice(alloc, self.bytes.as_slice())?;
        let tags = Vec::from_slice(alloc, self.tags.as_slice())?;
        Ok(PageImage { bytes, tags })
    }

    /// The image of 4096 bytes and 64 tags. Takes no memory.
    pub fn from_parts(bytes: Vec<u8>, tags: Vec<u64>) -> PageImage
        requires bytes { length bytes.items ≡ 4096 }
        requires tags { length tags.items ≡ 64 }
        ensures parts { result ≡ record { bytes = bytes.items; tags = tags.items } }
        ensures shape { IsPageImage result }
    {
        PageImage { bytes, tags }
    }

    /// The 4096 bytes.
    pub fn bytes(&self) -> &[u8]
        ensures bytes { result.now ≡ self.now.bytes }
        ensures shape { IsPageImage self.now }
    {
        self.bytes.as_slice()
    }

    /// The 64 tags, that of the first granule first.
    pub fn tags(&self) -> &[u64]
        ensures tags { result.now ≡ self.now.tags }
        ensures shape { IsPageImage self.now }
    {
        self.tags.as_slice()
    }

    /// The number in `size` bytes, 1, 2 or 4, from the byte `offset` on, the lowest byte first. It is
    /// not extended by a sign. `offset` is a multiple of the size, below 4096.
    pub fn load(&self, offset: u32, size: u8) -> u32
        requires { IsInside offset size }
        ensures number { result ≡ number_at self.now offset size }
        ensures shape { IsPageImage self.now }
    {
        let at = offset as usize;
        let size = size as usize;
        let mut word = [0u8; 4];
        word[..size].copy_from_slice(&self.bytes[at..at + size]);
        u32::from_le_bytes(word)
    }

    /// The byte at an offset below 4096.
    pub fn byte(&self, offset: u32) -> u8
        requires { offset < 4096 }
        ensures byte { result ≡ slice_index self.now.bytes offset }
        ensures shape { IsPageImage self.now }
    {
        self.bytes[offset as usize]
    }

    /// Stores the low `size` bytes of `value`, 1, 2 or 4, from the byte `offset` on, the lowest byte
    /// first, and gives their granule the tag. `offset` is a multiple of the size, below 4096.
    pub fn store(&mut self, offset: u32, size: u8, value: u32, tag: u64)
        requires { IsInside offset size }
        ensures after { self.new ≡ image_after self.old offset size value tag }
        ensures shape { IsPageImage self.new }
    {
        let at = offset as usize;
        let size = size as usize;
        let bytes = value.to_le_bytes();
        self.bytes[at..at + size].copy_from_slice(&bytes[..size]);
        self.tags[at / 64] = tag;
    }

    /// The tag of granule number `granule`, below 64: of the bytes from 64 times the number on.
    pub fn tag(&self, granule: u8) -> u64
        requires { granule < 64 }
        ensures tag { result ≡ tag_at self.now granule }
        ensures shape { IsPageImage self.now }
    {
        self.tags[granule as usize]
    }

    /// Appends the 4608 bytes of the image's spelling. After an error the bytes are as they were.
    pub fn to_bytes(&self, out: &mut Vec<u8>) -> Result<(), NoMemory>
        ensures ok { OnOk result (out.new.items ≡ out.old.items ++ spelling_of self.now) }
        ensures err { OnErr result (out.new.items ≡ out.old.items) }
        ensures shape { IsPageImage self.now }
    {
        let bytes = self.bytes.as_slice();
        out.reserve(4608)?;
        out.extend_from_slice(bytes)?;
        append_tags(self.tags.as_slice(), out)
    }

    /// The image that the bytes spell. It is None exactly where they are not 4608 bytes.
    pub fn from_bytes(alloc: Global, bytes: &[u8]) -> Result<Option<PageImage>, NoMemory>
        ensures some { IfOk result (λ found. IsSome found ↔ (length bytes.now ≡ 4608)) }
        ensures spelled { IfOk result (λ found. IfSome found (λ image. spelling_of image ≡ bytes.now)) }
        ensures shape { IfOk result (λ found. IfSome found IsPageImage) }

        // No other image has this spelling.
        ensures sole { IfOk result (λ found. (image : PageImageView) → IsPageImage image → spelling_of image ≡ bytes.now → found ≡ Some image) }
    {
        if bytes.len() != 4608 {
            return Ok(None);
        }
        let (front, back) = bytes.split_at(4096);
        let page = Vec::from_slice(alloc, front)?;
        let tags = tags_of(alloc, back)?;
        Ok(Some(PageImage { bytes: page, tags }))
    }
}
