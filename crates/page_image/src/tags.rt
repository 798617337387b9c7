//! The tags of an image, spelled as bytes.

ghost use Rattle.std.specs.Prelude.{◌≡◌, ◌+◌, ◌*◌, ◌^◌, ◌<◌, ◌≤◌, ◌++◌, length, take, drop, All, IfOk, IsOk, vec_len, vec_capacity};
ghost use Rattle.std.specs.Int.{w64, to_be_bytes};
ghost use Rattle.std.specs.List.{flat_map};

use mind_base::NoMemory;
use std::alloc::Global;

// Appends each tag in 8 bytes, the highest first. There is room for them.
pub fn append_tags(tags: &[u64], out: &mut Vec<u8>) -> Result<(), NoMemory>
    requires { vec_len out.old + 8 * length tags.now ≤ vec_capacity out.old }
    ensures items { out.new.items ≡ out.old.items ++ flat_map (to_be_bytes w64) tags.now }
    ensures ok { IsOk result }
{
    for tag in tags {
        out.extend_from_slice(&tag.to_be_bytes())?;
    }
    Ok(())
}

// The tag in the 8 bytes from `at` on.
fn tag_from(bytes: &[u8], at: usize) -> u64
    requires { at + 8 ≤ length bytes.now }
    ensures { to_be_bytes w64 result ≡ take 8 (drop at bytes.now) }
{
    let mut tag = [0u8; 8];
    tag.copy_from_slice(&bytes[at..at + 8]);
    u64::from_be_bytes(tag)
}

// The 64 tags that the bytes spell.
pub fn tags_of(alloc: Global, bytes: &[u8]) -> Result<Vec<u64>, NoMemory>
    requires { length bytes.now ≡ 512 }
    ensures spelled { IfOk result (λ tags. flat_map (to_be_bytes w64) tags.items ≡ bytes.now) }
    ensures count { IfOk result (λ tags. length tags.items ≡ 64) }
    ensures range { IfOk result (λ tags. All (λ tag. tag < 2 ^ 64) tags.items) }
{
    let mut tags = Vec::with_capacity(alloc, 64)?;
    for i in 0..64 {
        tags.push(tag_from(bytes, 8 * i))?;
    }
    Ok(tags)
}
