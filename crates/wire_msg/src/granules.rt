//! The granules of an image as they are spelled: a mask of those that are not blank, and these.

ghost use Rattle.std.specs.Prelude.{◌≡◌, ◌+◌, ◌*◌, ◌<◌, ◌≤◌, ◌==◌, ◌++◌, List, ℕ, length, take, drop, slice_index, if◌then◌else◌, IfOk, OnOk, OnErr};
ghost use Rattle.std.specs.Int.{w64, to_be_bytes};
ghost use Rattle.std.specs.List.{list_all};
ghost use Rattle.wire_msg.specs.Spelling.{is_blank, granule_bytes, granules_bytes, mask_of};
ghost use Rattle.wire_msg.specs.Reading.{GivesRead, long_read, spelled_read, granule_read, granules_read};

use crate::WireRefusal;
use crate::reading::run;
use mind_base::NoMemory;
use std::alloc::Global;

fn is_zero(bytes: &[u8]) -> bool
    ensures { result ≡ list_all (λ byte. byte == 0) bytes.now }
{
    bytes.iter().all(|byte| *byte == 0)
}

/// Whether nothing is spelled of a granule: its bytes and its tag are all zero.
#[tactic(auto, unfolding(crate::specs::Spelling::is_blank))]
fn is_blank(granule: &[u8], tag: u64) -> bool
    ensures { result ≡ is_blank granule.now tag }
{
    tag == 0 && is_zero(granule)
}

/// The 64 bytes of a granule.
fn granule_at(bytes: &[u8], g: usize) -> &[u8]
    requires { 64 * g + 64 ≤ length bytes.now }
    ensures { result.now ≡ take 64 (drop (64 * g) bytes.now) }
{
    &bytes[64 * g..64 * g + 64]
}

/// 1 for a granule that is spelled, else 0.
fn bit(bytes: &[u8], tags: &[u64], g: usize) -> u64
    requires bytes { 64 * g + 64 ≤ length bytes.now }
    requires tags { g < length tags.now }
    ensures { result ≡ (if is_blank (take 64 (drop (64 * g) bytes.now)) (slice_index tags.now g) then 0 else 1) }
{
    u64::from(!is_blank(granule_at(bytes, g), tags[g]))
}

/// Which of the 64 granules are spelled: bit g, from the lowest, for granule g.
pub fn mask(bytes: &[u8], tags: &[u64]) -> u64
    requires bytes { length bytes.now ≡ 4096 }
    requires tags { length tags.now ≡ 64 }
    ensures { result ≡ mask_of bytes.now tags.now }
{
    let mut mask = 0u64;
    for i in 0..64 {
        mask = 2 * mask + bit(bytes, tags, 63 - i);
    }
    mask
}

/// Appends a number in 8 bytes, the highest first. After an error the bytes are as they were.
pub fn put_long(out: &mut Vec<u8>, number: u64) -> Result<(), NoMemory>
    ensures ok { OnOk result (out.new.items ≡ out.old.items ++ to_be_bytes w64 number) }
    ensures err { OnErr result (out.new.items ≡ out.old.items) }
{
    out.extend_from_slice(&number.to_be_bytes())?;
    Ok(())
}

/// Appends a granule, unless it is blank. After an error a part of it may stand there.
fn put_granule(out: &mut Vec<u8>, bytes: &[u8], tags: &[u64], g: usize) -> Result<(), NoMemory>
    requires bytes { 64 * g + 64 ≤ length bytes.now }
    requires tags { g < length tags.now }
    ensures ok { OnOk result (out.new.items ≡ out.old.items ++ granule_bytes (take 64 (drop (64 * g) bytes.now)) (slice_index tags.now g)) }
    ensures err { OnErr result ((more : List ℕ) × (out.new.items ≡ out.old.items ++ more)) }
{
    let granule = granule_at(bytes, g);
    if is_blank(granule, tags[g]) {
        return Ok(());
    }
    out.extend_from_slice(granule)?;
    put_long(out, tags[g])?;
    Ok(())
}

/// Appends the granules that are not blank, in rising order. After an error a part of them may stand
/// there.
pub fn put_granules(out: &mut Vec<u8>, bytes: &[u8], tags: &[u64]) -> Result<(), NoMemory>
    requires bytes { length bytes.now ≡ 4096 }
    requires tags { length tags.now ≡ 64 }
    ensures ok { OnOk result (out.new.items ≡ out.old.items ++ granules_bytes bytes.now tags.now) }
    ensures err { OnErr result ((more : List ℕ) × (out.new.items ≡ out.old.items ++ more)) }
{
    for g in 0..64 {
        put_granule(out, bytes, tags, g)?;
    }
    Ok(())
}

/// The number in the 8 bytes at the front, the highest first.
#[tactic(auto, unfolding(crate::specs::Reading::long_read))]
pub fn long(bytes: &[u8]) -> Result<(u64, &[u8]), WireRefusal>
    ensures { GivesRead (λ x. (x.0, x.1.now)) result (long_read bytes.now) }
{
    let (spelled, rest) = run(8, bytes)?;
    let mut number = [0u8; 8];
    number.copy_from_slice(spelled);
    Ok((u64::from_be_bytes(number), rest))
}

/// A granule that is spelled: its 64 bytes and its tag.
#[tactic(auto, unfolding(crate::specs::Reading::spelled_read))]
fn spelled(bytes: &[u8]) -> Result<((&[u8], u64), &[u8]), WireRefusal>
    ensures given { GivesRead (λ x. ((x.0.0.now, x.0.1), x.1.now)) result (spelled_read bytes.now) }
    ensures sized { IfOk result (λ x. length x.0.0.now ≡ 64) }
{
    let (granule, rest) = run(64, bytes)?;
    let (tag, rest) = long(rest)?;
    if is_blank(granule, tag) {
        return Err(WireRefusal::BadFrame);
    }
    Ok(((granule, tag), rest))
}

/// A granule by its bit: spelled, or zero.
#[tactic(auto, unfolding(crate::specs::Reading::granule_read))]
fn granule(is_spelled: bool, bytes: &[u8]) -> Result<((&[u8], u64), &[u8]), WireRefusal>
    ensures given { GivesRead (λ x. ((x.0.0.now, x.0.1), x.1.now)) result (granule_read is_spelled bytes.now) }
    ensures sized { IfOk result (λ x. length x.0.0.now ≡ 64) }
{
    if is_spelled {
        return spelled(bytes);
    }
    Ok(((&[0; 64], 0), bytes))
}

/// The bytes and the tags of 64 granules, by the bits of a mask.
pub fn granules(
    alloc: Global,
    mask: u64,
    bytes: &[u8],
) -> Result<((Vec<u8>, Vec<u64>), &[u8]), WireRefusal>
    ensures given { GivesRead (λ x. ((x.0.0.items, x.0.1.items), x.1.now)) result (granules_read 64 mask bytes.now) }
    ensures sized { IfOk result (λ x. (length x.0.0.items ≡ 4096) × (length x.0.1.items ≡ 64)) }
{
    let mut left = mask;
    let mut rest = bytes;
    let mut page = Vec::with_capacity(alloc, 4096)?;
    let mut tags = Vec::with_capacity(alloc, 64)?;
    for _ in 0..64usize {
        let ((granule, tag), behind) = granule(left % 2 == 1, rest)?;
        page.extend_from_slice(granule)?;
        tags.push(tag)?;
        left /= 2;
        rest = behind;
    }
    Ok(((page, tags), rest))
}
