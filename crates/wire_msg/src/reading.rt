//! The message that bytes spell.

ghost use Rattle.std.specs.Prelude.{◌≡◌, Err, Some, IfOk, length};
ghost use Rattle.wire_msg.specs.declared.msgs.Msg.{Msg as message};
ghost use Rattle.wire_msg.specs.declared.refusals.WireRefusal.TheVariants.{BadFrame as bad_frame};
ghost use Rattle.wire_msg.specs.Spelling.{spelling};
ghost use Rattle.wire_msg.specs.WellFormed.{IsWellFormed};
ghost use Rattle.wire_msg.specs.Reading.{GivesRead, number_read, byte_read, bytes_read, page_numbered, asked_numbered, range_numbered, span_numbered, flag_of, fill_of, blade_of, range_read, span_read, flag_read, fill_read, blade_read, image_read, get_read, fill_message_read, deny_read, back_read, inv_read, lower_read, ack_read, close_read, closed_read, reopen_read, read_read, image_message_read, write_read, zero_read, fields_read, message_read, message_of};

use crate::granules::{granules, long};
use crate::{Msg, WireRefusal};
use byteorder::{BigEndian, ByteOrder};
use mind_base::{Page, Perm, Range, Span};
use page_image::PageImage;
use std::alloc::Global;

/// The message that the bytes spell.
pub fn decode(alloc: Global, bytes: &[u8]) -> Result<Msg, WireRefusal>
    // What is given is spelled so.
    ensures found { IfOk result (λ msg. IsWellFormed msg × (spelling msg ≡ bytes.now)) }

    // The message that is spelled so is given, unless memory ran out.
    ensures only { (msg : message) → IsWellFormed msg → spelling msg ≡ bytes.now → GivesRead (λ m. m) result (Some msg) }

    // The bytes are refused exactly where no message is spelled so.
    ensures refused { result ≡ Err bad_frame → (msg : message) → IsWellFormed msg → spelling msg ≡ bytes.now → ⊥ }
{
    whole(alloc, bytes)
}

#[tactic(auto, unfolding(crate::specs::Reading::message_of))]
fn whole(alloc: Global, bytes: &[u8]) -> Result<Msg, WireRefusal>
    ensures { GivesRead (λ m. m) result (message_of bytes.now) }
{
    let (msg, rest) = message(alloc, bytes)?;
    if !rest.is_empty() {
        return Err(WireRefusal::BadFrame);
    }
    Ok(msg)
}

#[tactic(auto, unfolding(crate::specs::Reading::message_read))]
fn message(alloc: Global, bytes: &[u8]) -> Result<(Msg, &[u8]), WireRefusal>
    ensures { GivesRead (λ x. (x.0, x.1.now)) result (message_read bytes.now) }
{
    match bytes {
        [] => Err(WireRefusal::BadFrame),
        [kind, rest @ ..] => fields(alloc, *kind, rest),
    }
}

#[tactic(auto, unfolding(crate::specs::Reading::fields_read, crate::specs::Reading::kind_read))]
fn fields(alloc: Global, kind: u8, bytes: &[u8]) -> Result<(Msg, &[u8]), WireRefusal>
    ensures { GivesRead (λ x. (x.0, x.1.now)) result (fields_read kind bytes.now) }
{
    match kind {
        1 => get(bytes),
        2 => fill(alloc, bytes),
        3 => deny(bytes),
        4 => back(alloc, bytes),
        5 => inv(bytes),
        6 => lower(bytes),
        7 => ack(bytes),
        8 => close(bytes),
        9 => closed(bytes),
        10 => reopen(bytes),
        11 => read(bytes),
        12 => image_message(alloc, bytes),
        13 => write(alloc, bytes),
        14 => zero(bytes),
        _ => Err(WireRefusal::BadFrame),
    }
}

#[tactic(auto, unfolding(crate::specs::Reading::number_read))]
fn number(bytes: &[u8]) -> Result<(u32, &[u8]), WireRefusal>
    ensures { GivesRead (λ x. (x.0, x.1.now)) result (number_read bytes.now) }
{
    if bytes.len() < 4 {
        return Err(WireRefusal::BadFrame);
    }
    Ok((BigEndian::read_u32(bytes), &bytes[4..]))
}

#[tactic(auto, unfolding(crate::specs::Reading::byte_read))]
fn byte(bytes: &[u8]) -> Result<(u8, &[u8]), WireRefusal>
    ensures { GivesRead (λ x. (x.0, x.1.now)) result (byte_read bytes.now) }
{
    match bytes {
        [] => Err(WireRefusal::BadFrame),
        [byte, rest @ ..] => Ok((*byte, rest)),
    }
}

#[tactic(auto, unfolding(crate::specs::Reading::bytes_read))]
pub fn run(count: usize, bytes: &[u8]) -> Result<(&[u8], &[u8]), WireRefusal>
    ensures given { GivesRead (λ x. (x.0.now, x.1.now)) result (bytes_read count bytes.now) }
    ensures count { IfOk result (λ x. length x.0.now ≡ count) }
{
    if bytes.len() < count {
        return Err(WireRefusal::BadFrame);
    }
    Ok(bytes.split_at(count))
}

#[tactic(auto, unfolding(crate::specs::Reading::page_numbered))]
fn page(number: u32) -> Result<Page, WireRefusal>
    ensures { GivesRead (λ page. page) result (page_numbered number) }
{
    if number >= 16_777_216 {
        return Err(WireRefusal::BadFrame);
    }
    Ok(Page {
        domain: (number / 1_048_576) as u8,
        number: number % 1_048_576,
    })
}

#[tactic(auto, unfolding(crate::specs::Reading::asked_numbered))]
fn asked(number: u32) -> Result<Option<Page>, WireRefusal>
    ensures { GivesRead (λ asked. asked) result (asked_numbered number) }
{
    if number == u32::MAX {
        return Ok(None);
    }
    Ok(Some(page(number)?))
}

#[tactic(auto, unfolding(crate::specs::Reading::range_numbered))]
fn range(base: Page, log: u8) -> Result<Range, WireRefusal>
    ensures { GivesRead (λ range. range) result (range_numbered (base, log)) }
{
    if log > 9 || base.number % (1 << log) != 0 {
        return Err(WireRefusal::BadFrame);
    }
    Ok(Range {
        domain: base.domain,
        base: base.number,
        log,
    })
}

#[tactic(auto, unfolding(crate::specs::Reading::span_numbered))]
fn span(base: Page, pages: u32) -> Result<Span, WireRefusal>
    ensures { GivesRead (λ span. span) result (span_numbered (base, pages)) }
{
    if pages == 0 || pages > 1_048_576 - base.number {
        return Err(WireRefusal::BadFrame);
    }
    Ok(Span {
        domain: base.domain,
        base: base.number,
        pages,
    })
}

#[tactic(auto, unfolding(crate::specs::Reading::flag_of))]
fn flag(byte: u8) -> Result<bool, WireRefusal>
    ensures { GivesRead (λ flag. flag) result (flag_of byte) }
{
    if byte > 1 {
        return Err(WireRefusal::BadFrame);
    }
    Ok(byte == 1)
}

#[tactic(auto, unfolding(crate::specs::Reading::fill_of))]
fn fill_perm(byte: u8) -> Result<(Perm, bool), WireRefusal>
    ensures { GivesRead (λ x. x) result (fill_of byte) }
{
    match byte {
        0 => Ok((Perm::R, false)),
        2 => Ok((Perm::Rw, false)),
        3 => Ok((Perm::Rw, true)),
        _ => Err(WireRefusal::BadFrame),
    }
}

#[tactic(auto, unfolding(crate::specs::Reading::blade_of))]
fn blade(byte: u8) -> Result<Option<u8>, WireRefusal>
    ensures { GivesRead (λ blade. blade) result (blade_of byte) }
{
    match byte {
        0..=7 => Ok(Some(byte)),
        255 => Ok(None),
        _ => Err(WireRefusal::BadFrame),
    }
}

#[tactic(auto, unfolding(crate::specs::Reading::range_read, crate::specs::Reading::page_read))]
fn range_at(bytes: &[u8]) -> Result<(Range, &[u8]), WireRefusal>
    ensures { GivesRead (λ x. (x.0, x.1.now)) result (range_read bytes.now) }
{
    let (base, rest) = number(bytes)?;
    let base = page(base)?;
    let (log, rest) = byte(rest)?;
    Ok((range(base, log)?, rest))
}

#[tactic(auto, unfolding(crate::specs::Reading::span_read, crate::specs::Reading::page_read))]
fn span_at(bytes: &[u8]) -> Result<(Span, &[u8]), WireRefusal>
    ensures { GivesRead (λ x. (x.0, x.1.now)) result (span_read bytes.now) }
{
    let (base, rest) = number(bytes)?;
    let base = page(base)?;
    let (pages, rest) = number(rest)?;
    Ok((span(base, pages)?, rest))
}

#[tactic(auto, unfolding(crate::specs::Reading::flag_read))]
fn flag_at(bytes: &[u8]) -> Result<(bool, &[u8]), WireRefusal>
    ensures { GivesRead (λ x. (x.0, x.1.now)) result (flag_read bytes.now) }
{
    let (byte, rest) = byte(bytes)?;
    Ok((flag(byte)?, rest))
}

#[tactic(auto, unfolding(crate::specs::Reading::fill_read))]
fn perm_at(bytes: &[u8]) -> Result<((Perm, bool), &[u8]), WireRefusal>
    ensures { GivesRead (λ x. (x.0, x.1.now)) result (fill_read bytes.now) }
{
    let (byte, rest) = byte(bytes)?;
    Ok((fill_perm(byte)?, rest))
}

#[tactic(auto, unfolding(crate::specs::Reading::blade_read))]
fn blade_at(bytes: &[u8]) -> Result<(Option<u8>, &[u8]), WireRefusal>
    ensures { GivesRead (λ x. (x.0, x.1.now)) result (blade_read bytes.now) }
{
    let (byte, rest) = byte(bytes)?;
    Ok((blade(byte)?, rest))
}

#[tactic(auto, unfolding(crate::specs::Reading::image_read))]
fn image_at(alloc: Global, bytes: &[u8]) -> Result<(PageImage, &[u8]), WireRefusal>
    ensures { GivesRead (λ x. (x.0, x.1.now)) result (image_read bytes.now) }
{
    let (mask, rest) = long(bytes)?;
    let ((page, tags), rest) = granules(alloc, mask, rest)?;
    Ok((PageImage::from_parts(page, tags), rest))
}

#[tactic(auto, unfolding(crate::specs::Reading::get_read, crate::specs::Reading::page_read))]
fn get(bytes: &[u8]) -> Result<(Msg, &[u8]), WireRefusal>
    ensures { GivesRead (λ x. (x.0, x.1.now)) result (get_read bytes.now) }
{
    let (page_number, rest) = number(bytes)?;
    let page = page(page_number)?;
    let (write, rest) = flag_at(rest)?;
    Ok((Msg::Get { page, write }, rest))
}

#[tactic(auto, unfolding(crate::specs::Reading::fill_message_read, crate::specs::Reading::page_read))]
fn fill(alloc: Global, bytes: &[u8]) -> Result<(Msg, &[u8]), WireRefusal>
    ensures { GivesRead (λ x. (x.0, x.1.now)) result (fill_message_read bytes.now) }
{
    let (page_number, rest) = number(bytes)?;
    let page = page(page_number)?;
    let ((perm, writable), rest) = perm_at(rest)?;
    let (image, rest) = image_at(alloc, rest)?;
    Ok((
        Msg::Fill {
            page,
            perm,
            writable,
            image,
        },
        rest,
    ))
}

#[tactic(auto, unfolding(crate::specs::Reading::deny_read, crate::specs::Reading::page_read))]
fn deny(bytes: &[u8]) -> Result<(Msg, &[u8]), WireRefusal>
    ensures { GivesRead (λ x. (x.0, x.1.now)) result (deny_read bytes.now) }
{
    let (page_number, rest) = number(bytes)?;
    let page = page(page_number)?;
    Ok((Msg::Deny { page }, rest))
}

#[tactic(auto, unfolding(crate::specs::Reading::back_read, crate::specs::Reading::page_read))]
fn back(alloc: Global, bytes: &[u8]) -> Result<(Msg, &[u8]), WireRefusal>
    ensures { GivesRead (λ x. (x.0, x.1.now)) result (back_read bytes.now) }
{
    let (page_number, rest) = number(bytes)?;
    let page = page(page_number)?;
    let (image, rest) = image_at(alloc, rest)?;
    Ok((Msg::Back { page, image }, rest))
}

#[tactic(auto, unfolding(crate::specs::Reading::inv_read, crate::specs::Reading::asked_read))]
fn inv(bytes: &[u8]) -> Result<(Msg, &[u8]), WireRefusal>
    ensures { GivesRead (λ x. (x.0, x.1.now)) result (inv_read bytes.now) }
{
    let (transition, rest) = number(bytes)?;
    match range_at(rest) {
        Ok((range, rest)) => {
            let (asked_number, rest) = number(rest)?;
            let asked = asked(asked_number)?;
            if let Some(page) = asked
                && !range.has(page)
            {
                return Err(WireRefusal::BadFrame);
            }
            Ok((
                Msg::Inv {
                    number: transition,
                    range,
                    asked,
                },
                rest,
            ))
        }
        Err(refusal) => Err(refusal),
    }
}

#[tactic(auto, unfolding(crate::specs::Reading::lower_read, crate::specs::Reading::page_read))]
fn lower(bytes: &[u8]) -> Result<(Msg, &[u8]), WireRefusal>
    ensures { GivesRead (λ x. (x.0, x.1.now)) result (lower_read bytes.now) }
{
    let (transition, rest) = number(bytes)?;
    match range_at(rest) {
        Ok((range, rest)) => {
            let (asked_number, rest) = number(rest)?;
            let asked = page(asked_number)?;
            if !range.has(asked) {
                return Err(WireRefusal::BadFrame);
            }
            Ok((
                Msg::Lower {
                    number: transition,
                    range,
                    asked,
                },
                rest,
            ))
        }
        Err(refusal) => Err(refusal),
    }
}

#[tactic(auto, unfolding(crate::specs::Reading::ack_read))]
fn ack(bytes: &[u8]) -> Result<(Msg, &[u8]), WireRefusal>
    ensures { GivesRead (λ x. (x.0, x.1.now)) result (ack_read bytes.now) }
{
    let (transition, rest) = number(bytes)?;
    let (count, rest) = number(rest)?;
    Ok((
        Msg::Ack {
            number: transition,
            count,
        },
        rest,
    ))
}

#[tactic(auto, unfolding(crate::specs::Reading::close_read))]
fn close(bytes: &[u8]) -> Result<(Msg, &[u8]), WireRefusal>
    ensures { GivesRead (λ x. (x.0, x.1.now)) result (close_read bytes.now) }
{
    let (command, rest) = number(bytes)?;
    match span_at(rest) {
        Ok((span, rest)) => {
            let (ends, rest) = flag_at(rest)?;
            Ok((
                Msg::Close {
                    number: command,
                    span,
                    ends,
                },
                rest,
            ))
        }
        Err(refusal) => Err(refusal),
    }
}

#[tactic(auto, unfolding(crate::specs::Reading::closed_read))]
fn closed(bytes: &[u8]) -> Result<(Msg, &[u8]), WireRefusal>
    ensures { GivesRead (λ x. (x.0, x.1.now)) result (closed_read bytes.now) }
{
    let (number, rest) = number(bytes)?;
    Ok((Msg::Closed { number }, rest))
}

#[tactic(auto, unfolding(crate::specs::Reading::reopen_read))]
fn reopen(bytes: &[u8]) -> Result<(Msg, &[u8]), WireRefusal>
    ensures { GivesRead (λ x. (x.0, x.1.now)) result (reopen_read bytes.now) }
{
    let (number, rest) = number(bytes)?;
    Ok((Msg::Reopen { number }, rest))
}

#[tactic(auto, unfolding(crate::specs::Reading::read_read, crate::specs::Reading::page_read))]
fn read(bytes: &[u8]) -> Result<(Msg, &[u8]), WireRefusal>
    ensures { GivesRead (λ x. (x.0, x.1.now)) result (read_read bytes.now) }
{
    let (phys, rest) = number(bytes)?;
    let (blade, rest) = blade_at(rest)?;
    let (page_number, rest) = number(rest)?;
    let page = page(page_number)?;
    Ok((Msg::Read { phys, blade, page }, rest))
}

#[tactic(auto, unfolding(crate::specs::Reading::image_message_read, crate::specs::Reading::page_read))]
fn image_message(alloc: Global, bytes: &[u8]) -> Result<(Msg, &[u8]), WireRefusal>
    ensures { GivesRead (λ x. (x.0, x.1.now)) result (image_message_read bytes.now) }
{
    let (blade, rest) = blade_at(bytes)?;
    let (page_number, rest) = number(rest)?;
    let page = page(page_number)?;
    let (image, rest) = image_at(alloc, rest)?;
    Ok((Msg::Image { blade, page, image }, rest))
}

#[tactic(auto, unfolding(crate::specs::Reading::write_read))]
fn write(alloc: Global, bytes: &[u8]) -> Result<(Msg, &[u8]), WireRefusal>
    ensures { GivesRead (λ x. (x.0, x.1.now)) result (write_read bytes.now) }
{
    let (phys, rest) = number(bytes)?;
    let (image, rest) = image_at(alloc, rest)?;
    Ok((Msg::Write { phys, image }, rest))
}

#[tactic(auto, unfolding(crate::specs::Reading::zero_read))]
fn zero(bytes: &[u8]) -> Result<(Msg, &[u8]), WireRefusal>
    ensures { GivesRead (λ x. (x.0, x.1.now)) result (zero_read bytes.now) }
{
    let (phys, rest) = number(bytes)?;
    let (pages, rest) = number(rest)?;
    if pages == 0 || pages > u32::MAX - phys {
        return Err(WireRefusal::BadFrame);
    }
    Ok((Msg::Zero { phys, pages }, rest))
}
