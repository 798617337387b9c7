//! The bytes that spell a message.

ghost use Rattle.std.specs.Prelude.{◌≡◌, ◌<◌, ◌≤◌, ◌^◌, ◌++◌, ◌∷◌, [], List, ℕ, IfSome, OnOk, OnErr, option_copied};
ghost use Rattle.page_image.specs.PageImage.{IsPageImage};
ghost use Rattle.wire_msg.specs.Spelling.{spelling, number_bytes, page_bytes, range_bytes, span_bytes, asked_bytes, flag_bytes, fill_bytes, blade_bytes, mask_of, image_bytes};
ghost use Rattle.wire_msg.specs.WellFormed.{FieldsAgree, IsInBounds, IsWellFormed, IsPageView, IsRangeView, IsSpanView, IsAsked};
ghost use Rattle.wire_msg.specs.Writing.{head_of, FitsHead, image_in};

use crate::Msg;
use crate::granules::{mask, put_granules, put_long};
use byteorder::{BigEndian, ByteOrder};
use mind_base::{NoMemory, Page, Perm, Range, Span};
use page_image::PageImage;

/// Appends the one spelling of a message. After an error `out` is as it was.
pub fn encode(msg: &Msg, out: &mut Vec<u8>) -> Result<(), NoMemory>
    requires { FieldsAgree msg.now }
    ensures ok { OnOk result (out.new.items ≡ out.old.items ++ spelling msg.now) }
    ensures err { OnErr result (out.new.items ≡ out.old.items) }
    ensures formed { OnOk result (IsWellFormed msg.now) }
{
    let held = out.len();
    match put_message(out, msg) {
        Ok(()) => Ok(()),
        Err(failure) => {
            out.truncate(held);
            Err(failure)
        }
    }
}

/// How many bytes there are before an image.
fn size_of_head(msg: &Msg) -> usize
    ensures { result ≤ 14 }
{
    match msg {
        Msg::Deny { .. }
        | Msg::Back { .. }
        | Msg::Closed { .. }
        | Msg::Reopen { .. }
        | Msg::Write { .. } => 5,
        Msg::Get { .. } | Msg::Fill { .. } | Msg::Image { .. } => 6,
        Msg::Ack { .. } | Msg::Zero { .. } => 9,
        Msg::Read { .. } => 10,
        Msg::Inv { .. } | Msg::Lower { .. } | Msg::Close { .. } => 14,
    }
}

/// Appends the spelling of a message. After an error a part of it may stand there.
fn put_message(out: &mut Vec<u8>, msg: &Msg) -> Result<(), NoMemory>
    ensures ok { OnOk result (out.new.items ≡ out.old.items ++ spelling msg.now) }
    ensures err { OnErr result ((more : List ℕ) × (out.new.items ≡ out.old.items ++ more)) }
    ensures fits { OnOk result (IsInBounds msg.now) }
{
    match image_of(msg) {
        None => {
            out.reserve(size_of_head(msg))?;
            put_head(out, msg)
        }
        Some(image) => {
            let mask = mask(image.bytes(), image.tags());
            out.reserve(size_of_head(msg) + 8 + 72 * mask.count_ones() as usize)?;
            put_head(out, msg)?;
            put_image(out, mask, image)
        }
    }
}

/// Appends the spelling of an image by its mask. After an error a part of it may stand there.
#[tactic(auto, unfolding(crate::specs::Spelling::image_bytes))]
fn put_image(out: &mut Vec<u8>, mask: u64, image: &PageImage) -> Result<(), NoMemory>
    requires { mask ≡ mask_of image.now.bytes image.now.tags }
    ensures ok { OnOk result (out.new.items ≡ out.old.items ++ image_bytes image.now) }
    ensures err { OnErr result ((more : List ℕ) × (out.new.items ≡ out.old.items ++ more)) }
    ensures fits { IsPageImage image.now }
{
    let bytes = image.bytes();
    let tags = image.tags();
    put_long(out, mask)?;
    put_granules(out, bytes, tags)
}

/// The image that the message has as its last field.
fn image_of(msg: &Msg) -> Option<&PageImage>
    ensures { option_copied result ≡ image_in msg.now }
{
    match msg {
        Msg::Fill { image, .. } => Some(image),
        Msg::Back { image, .. } => Some(image),
        Msg::Image { image, .. } => Some(image),
        Msg::Write { image, .. } => Some(image),
        _ => None,
    }
}

/// Appends the first byte of the message and all its fields but an image.
fn put_head(head: &mut Vec<u8>, msg: &Msg) -> Result<(), NoMemory>
    ensures ok { OnOk result (head.new.items ≡ head.old.items ++ head_of msg.now) }
    ensures err { OnErr result ((more : List ℕ) × (head.new.items ≡ head.old.items ++ more)) }
    ensures fits { OnOk result (FitsHead msg.now) }
{
    match msg {
        Msg::Get { page, write } => put_get(head, *page, *write),
        Msg::Fill {
            page,
            perm,
            writable,
            ..
        } => put_fill(head, *page, *perm, *writable),
        Msg::Deny { page } => put_page(head, 3, *page),
        Msg::Back { page, .. } => put_page(head, 4, *page),
        Msg::Inv {
            number,
            range,
            asked,
        } => put_order(head, 5, *number, *range, *asked),
        Msg::Lower {
            number,
            range,
            asked,
        } => put_order(head, 6, *number, *range, Some(*asked)),
        Msg::Ack { number, count } => put_numbers(head, 7, *number, *count),
        Msg::Close { number, span, ends } => put_close(head, *number, *span, *ends),
        Msg::Closed { number } => put_number(head, 9, *number),
        Msg::Reopen { number } => put_number(head, 10, *number),
        Msg::Read { phys, blade, page } => put_read(head, *phys, *blade, *page),
        Msg::Image { blade, page, .. } => put_image_head(head, *blade, *page),
        Msg::Write { phys, .. } => put_number(head, 13, *phys),
        Msg::Zero { phys, pages } => put_numbers(head, 14, *phys, *pages),
    }
}

#[tactic(auto, unfolding(crate::specs::Spelling::number_bytes))]
fn add_number(head: &mut Vec<u8>, number: u32) -> Result<(), NoMemory>
    ensures ok { OnOk result (head.new.items ≡ head.old.items ++ number_bytes number) }
    ensures err { OnErr result ((more : List ℕ) × (head.new.items ≡ head.old.items ++ more)) }
    ensures fits { number < 2 ^ 32 }
{
    let mut bytes = [0u8; 4];
    BigEndian::write_u32(&mut bytes, number);
    head.extend_from_slice(&bytes)?;
    Ok(())
}

fn add_byte(head: &mut Vec<u8>, byte: u8) -> Result<(), NoMemory>
    ensures ok { OnOk result (head.new.items ≡ head.old.items ++ byte ∷ []) }
    ensures err { OnErr result ((more : List ℕ) × (head.new.items ≡ head.old.items ++ more)) }
{
    head.push(byte)?;
    Ok(())
}

fn add_page(head: &mut Vec<u8>, page: Page) -> Result<(), NoMemory>
    ensures ok { OnOk result (head.new.items ≡ head.old.items ++ page_bytes page) }
    ensures err { OnErr result ((more : List ℕ) × (head.new.items ≡ head.old.items ++ more)) }
    ensures fits { IsPageView page }
{
    add_number(head, u32::from(page.domain) * 1_048_576 + page.number)
}

fn add_range(head: &mut Vec<u8>, range: Range) -> Result<(), NoMemory>
    ensures ok { OnOk result (head.new.items ≡ head.old.items ++ range_bytes range) }
    ensures err { OnErr result ((more : List ℕ) × (head.new.items ≡ head.old.items ++ more)) }
    ensures fits { IsRangeView range }
{
    add_number(head, u32::from(range.domain) * 1_048_576 + range.base)?;
    add_byte(head, range.log)
}

fn add_span(head: &mut Vec<u8>, span: Span) -> Result<(), NoMemory>
    ensures ok { OnOk result (head.new.items ≡ head.old.items ++ span_bytes span) }
    ensures err { OnErr result ((more : List ℕ) × (head.new.items ≡ head.old.items ++ more)) }
    ensures fits { IsSpanView span }
{
    add_number(head, u32::from(span.domain) * 1_048_576 + span.base)?;
    add_number(head, span.pages)
}

fn add_asked(head: &mut Vec<u8>, asked: Option<Page>) -> Result<(), NoMemory>
    ensures ok { OnOk result (head.new.items ≡ head.old.items ++ asked_bytes asked) }
    ensures err { OnErr result ((more : List ℕ) × (head.new.items ≡ head.old.items ++ more)) }
    ensures fits { IsAsked asked }
{
    match asked {
        None => add_number(head, u32::MAX),
        Some(page) => add_page(head, page),
    }
}

fn add_flag(head: &mut Vec<u8>, flag: bool) -> Result<(), NoMemory>
    ensures ok { OnOk result (head.new.items ≡ head.old.items ++ flag_bytes flag) }
    ensures err { OnErr result ((more : List ℕ) × (head.new.items ≡ head.old.items ++ more)) }
{
    add_byte(head, u8::from(flag))
}

fn add_perm(head: &mut Vec<u8>, perm: Perm, writable: bool) -> Result<(), NoMemory>
    ensures ok { OnOk result (head.new.items ≡ head.old.items ++ fill_bytes perm writable) }
    ensures err { OnErr result ((more : List ℕ) × (head.new.items ≡ head.old.items ++ more)) }
{
    let perm = match perm {
        Perm::No | Perm::R => 0,
        Perm::Rw => 2,
    };
    add_byte(head, perm + u8::from(writable))
}

fn add_blade(head: &mut Vec<u8>, blade: Option<u8>) -> Result<(), NoMemory>
    ensures ok { OnOk result (head.new.items ≡ head.old.items ++ blade_bytes blade) }
    ensures err { OnErr result ((more : List ℕ) × (head.new.items ≡ head.old.items ++ more)) }
{
    match blade {
        None => add_byte(head, 255),
        Some(blade) => add_byte(head, blade),
    }
}

/// Appends for whom a page is read.
fn add_reader(head: &mut Vec<u8>, blade: Option<u8>, page: Page) -> Result<(), NoMemory>
    ensures ok { OnOk result (head.new.items ≡ head.old.items ++ (blade_bytes blade ++ page_bytes page)) }
    ensures err { OnErr result ((more : List ℕ) × (head.new.items ≡ head.old.items ++ more)) }
    ensures fits { OnOk result (IsPageView page) }
{
    add_blade(head, blade)?;
    add_page(head, page)
}

fn put_number(head: &mut Vec<u8>, kind: u8, number: u32) -> Result<(), NoMemory>
    ensures ok { OnOk result (head.new.items ≡ head.old.items ++ kind ∷ number_bytes number) }
    ensures err { OnErr result ((more : List ℕ) × (head.new.items ≡ head.old.items ++ more)) }
    ensures fits { OnOk result (number < 2 ^ 32) }
{
    add_byte(head, kind)?;
    add_number(head, number)
}

fn put_numbers(head: &mut Vec<u8>, kind: u8, first: u32, second: u32) -> Result<(), NoMemory>
    ensures ok { OnOk result (head.new.items
        ≡ head.old.items ++ kind ∷ (number_bytes first ++ number_bytes second)) }
    ensures err { OnErr result ((more : List ℕ) × (head.new.items ≡ head.old.items ++ more)) }
    ensures fits { OnOk result ((first < 2 ^ 32) × (second < 2 ^ 32)) }
{
    put_number(head, kind, first)?;
    add_number(head, second)
}

fn put_page(head: &mut Vec<u8>, kind: u8, page: Page) -> Result<(), NoMemory>
    ensures ok { OnOk result (head.new.items ≡ head.old.items ++ kind ∷ page_bytes page) }
    ensures err { OnErr result ((more : List ℕ) × (head.new.items ≡ head.old.items ++ more)) }
    ensures fits { OnOk result (IsPageView page) }
{
    add_byte(head, kind)?;
    add_page(head, page)
}

fn put_get(head: &mut Vec<u8>, page: Page, write: bool) -> Result<(), NoMemory>
    ensures ok { OnOk result (head.new.items ≡ head.old.items ++ 1 ∷ (page_bytes page ++ flag_bytes write)) }
    ensures err { OnErr result ((more : List ℕ) × (head.new.items ≡ head.old.items ++ more)) }
    ensures fits { OnOk result (IsPageView page) }
{
    put_page(head, 1, page)?;
    add_flag(head, write)
}

fn put_fill(head: &mut Vec<u8>, page: Page, perm: Perm, writable: bool) -> Result<(), NoMemory>
    ensures ok { OnOk result (head.new.items
        ≡ head.old.items ++ 2 ∷ (page_bytes page ++ fill_bytes perm writable)) }
    ensures err { OnErr result ((more : List ℕ) × (head.new.items ≡ head.old.items ++ more)) }
    ensures fits { OnOk result (IsPageView page) }
{
    put_page(head, 2, page)?;
    add_perm(head, perm, writable)
}

/// Appends what a transition tells a blade.
fn put_order(
    head: &mut Vec<u8>,
    kind: u8,
    number: u32,
    range: Range,
    asked: Option<Page>,
) -> Result<(), NoMemory>
    ensures ok { OnOk result (head.new.items
        ≡ head.old.items ++ kind ∷ (number_bytes number ++ (range_bytes range ++ asked_bytes asked))) }
    ensures err { OnErr result ((more : List ℕ) × (head.new.items ≡ head.old.items ++ more)) }
    ensures fits { OnOk result ((number < 2 ^ 32) × IsRangeView range × IsAsked asked) }
{
    put_number(head, kind, number)?;
    add_range(head, range)?;
    add_asked(head, asked)
}

fn put_close(head: &mut Vec<u8>, number: u32, span: Span, ends: bool) -> Result<(), NoMemory>
    ensures ok { OnOk result (head.new.items
        ≡ head.old.items ++ 8 ∷ (number_bytes number ++ (span_bytes span ++ flag_bytes ends))) }
    ensures err { OnErr result ((more : List ℕ) × (head.new.items ≡ head.old.items ++ more)) }
    ensures fits { OnOk result ((number < 2 ^ 32) × IsSpanView span) }
{
    put_number(head, 8, number)?;
    add_span(head, span)?;
    add_flag(head, ends)
}

fn put_read(head: &mut Vec<u8>, phys: u32, blade: Option<u8>, page: Page) -> Result<(), NoMemory>
    ensures ok { OnOk result (head.new.items
        ≡ head.old.items ++ 11 ∷ (number_bytes phys ++ (blade_bytes blade ++ page_bytes page))) }
    ensures err { OnErr result ((more : List ℕ) × (head.new.items ≡ head.old.items ++ more)) }
    ensures fits { OnOk result ((phys < 2 ^ 32) × IsPageView page) }
{
    put_number(head, 11, phys)?;
    add_reader(head, blade, page)
}

fn put_image_head(head: &mut Vec<u8>, blade: Option<u8>, page: Page) -> Result<(), NoMemory>
    ensures ok { OnOk result (head.new.items ≡ head.old.items ++ 12 ∷ (blade_bytes blade ++ page_bytes page)) }
    ensures err { OnErr result ((more : List ℕ) × (head.new.items ≡ head.old.items ++ more)) }
    ensures fits { OnOk result (IsPageView page) }
{
    add_byte(head, 12)?;
    add_reader(head, blade, page)
}
