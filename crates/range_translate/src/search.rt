//! Searches among the outliers.

ghost use Rattle.std.specs.Prelude.{◌≡◌, ◌≢◌, ◌+◌, ◌<◌, ◌≤◌, length, take, drop, count_by, find, filter, not, All, IsTrue, IfSome, vec_len, vec_capacity, if◌then◌else◌};
ghost use Rattle.std.specs.List.{list_any};
ghost use Rattle.range_translate.specs.Block.{block_lies_inside, encloses, comes_before};
ghost use Rattle.mind_base.specs.Range.{in_range, same_range};
ghost use Rattle.range_translate.specs.Place.{smallest_of, smaller_of, place_in_outlier, FitsOutlier};
ghost use Rattle.range_translate.specs.Order.{IsOrdered, put_in_order};

use crate::{Outlier, blocks};
use mind_base::{Page, Range};

/// The smallest of the outliers that have the page.
pub fn smallest_of(outliers: &[Outlier], page: Page) -> Option<Outlier>
    requires { All FitsOutlier outliers.now }
    ensures smallest { result ≡ smallest_of outliers.now page }
    ensures has { IfSome result (λ o. IsTrue (in_range o.range page)) }
    ensures fits { IfSome result FitsOutlier }
{
    let mut best: Option<Outlier> = None;
    let mut left = outliers.len();
    while left > 0 {
        left -= 1;
        best = smaller_with(&outliers[left], best, page);
    }
    best
}

/// The outlier in place of another one, if it has the page and the other one is not smaller.
fn smaller_with(outlier: &Outlier, other: Option<Outlier>, page: Page) -> Option<Outlier>
    ensures { result ≡ (if in_range outlier.now.range page then smaller_of outlier.now other else other) }
{
    if !outlier.range.has(page) {
        return other;
    }
    match other {
        None => Some(*outlier),
        Some(found) => Some(if found.range.log < outlier.range.log {
            found
        } else {
            *outlier
        }),
    }
}

pub fn first_inside(outliers: &[Outlier], range: &Range) -> Option<Outlier>
    ensures { result ≡ find (λ o. block_lies_inside o.range range.now) outliers.now }
{
    for outlier in outliers {
        if blocks::is_inside(&outlier.range, range) {
            return Some(*outlier);
        }
    }
    None
}

pub fn count_inside(outliers: &[Outlier], range: &Range) -> usize
    ensures { result ≡ count_by (λ o. block_lies_inside o.range range.now) outliers.now }
{
    outliers
        .iter()
        .filter(|o| blocks::is_inside(&o.range, range))
        .count()
}

pub fn any_encloses(outliers: &[Outlier], range: &Range) -> bool
    ensures { result ≡ list_any (λ o. encloses o.range range.now) outliers.now }
{
    outliers.iter().any(|o| blocks::encloses(&o.range, range))
}

pub fn with_range(outliers: &[Outlier], range: &Range) -> Option<Outlier>
    ensures { result ≡ find (λ o. same_range o.range range.now) outliers.now }
{
    for outlier in outliers {
        if blocks::same_range(&outlier.range, range) {
            return Some(*outlier);
        }
    }
    None
}

pub fn drop_range(outliers: &mut Vec<Outlier>, range: &Range)
    ensures left { outliers.new.items ≡ filter (λ o. not (same_range o.range range.now)) outliers.old.items }
    ensures capacity { vec_capacity outliers.new ≡ vec_capacity outliers.old }
{
    outliers.retain(|o| !blocks::same_range(&o.range, range));
}

/// Where the outlier says that one of its pages lies.
pub fn place_in(outlier: &Outlier, page: Page) -> (u8, u32)
    requires has { IsTrue (in_range outlier.now.range page) }
    requires fits { FitsOutlier outlier.now }
    ensures place { result ≡ place_in_outlier outlier.now page }
    ensures below { result.1 < 4294967295 }
{
    let range = &outlier.range;
    (outlier.memory, outlier.first + (page.number - range.base))
}

/// How many of the outliers come before the block.
fn count_before(outliers: &[Outlier], range: &Range) -> usize
    requires ordered { IsOrdered outliers.now }
    requires apart { All (λ other. other.range ≢ range.now) outliers.now }
    ensures within { result ≤ length outliers.now }
    ensures before { take result outliers.now ≡ filter (λ o. comes_before o.range range.now) outliers.now }
    ensures after { drop result outliers.now ≡ filter (λ o. comes_before range.now o.range) outliers.now }
{
    for (i, outlier) in outliers.iter().enumerate() {
        if !blocks::comes_before(&outlier.range, range) {
            return i;
        }
    }
    outliers.len()
}

/// Enters an outlier in its place, where there is room.
pub fn put(outliers: &mut Vec<Outlier>, outlier: Outlier)
    requires ordered { IsOrdered outliers.old.items }
    requires apart { All (λ other. other.range ≢ outlier.range) outliers.old.items }
    requires room { vec_len outliers.old < vec_capacity outliers.old }
    ensures len { vec_len outliers.new ≡ vec_len outliers.old + 1 }
    ensures items { outliers.new.items ≡ put_in_order outlier outliers.old.items }
    ensures capacity { vec_capacity outliers.old ≤ vec_capacity outliers.new }
{
    let at = count_before(outliers.as_slice(), &outlier.range);
    let Ok(()) = outliers.insert(at, outlier) else {
        unreachable!();
    };
}
