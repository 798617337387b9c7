//! The arrays of the top table whose elements are read alike.

ghost use Rattle.std.specs.Prelude.{◌≡◌, ◌≤◌, [], length, IfOk};
ghost use Rattle.toml.specs.View.{view, table_view, items_view};
ghost use Rattle.rack_file.specs.Keys.{member_path, items_judged, elements_judged};
ghost use Rattle.rack_file.specs.Judged.{GivesJudged};

use crate::keys::array_in;
use crate::refusals::{RackRefusal, element_path};
use mind_base::Sequence;
use std::alloc::Global;
use toml::{Table, Value};

/// Reads one element of an array.
pub(crate) trait ElementReader {
    ghost use Rattle.std.specs.Prelude.{ℕ, List, Result};
    ghost use Rattle.toml.specs.Data.{Data};
    ghost use Rattle.rack_file.specs.Keys.{Refused};

    /// What is read of an element.
    type Element: Drop;

    /// How an element is judged by its path.
    ghost judged: { Self → List ℕ → Data → Result Self.Element Refused };

    /// The element that the value at a path describes.
    fn element_in(
        &self,
        alloc: Global,
        path: &str,
        value: &Value,
    ) -> Result<Self::Element, RackRefusal>
        ensures { GivesJudged (λ x. x) result (judged self.now path.now (view value.now)) };
}

fn next_element<R: ElementReader>(
    alloc: Global,
    reader: &R,
    name: &str,
    value: &Value,
    number: usize,
) -> Result<R::Element, RackRefusal>
    ensures { GivesJudged (λ x. x) result (R.judged reader.now (member_path name.now number) (view value.now)) }
{
    let place = element_path(alloc, name, number)?;
    reader.element_in(alloc, place.as_str(), value)
}

fn elements_of<R: ElementReader>(
    alloc: Global,
    reader: &R,
    name: &str,
    values: &[Value],
) -> Result<Sequence<R::Element>, RackRefusal>
    ensures count { IfOk result (λ xs. length xs ≤ length values.now) }
    ensures walk { GivesJudged (λ xs. xs) result (items_judged (λ done. R.judged reader.now) name.now [] (items_view values.now)) }
{
    let mut elements = Sequence::new(alloc);
    for value in values {
        let element = next_element(alloc, reader, name, value, elements.len())?;
        if elements.push(element).is_err() {
            return Err(RackRefusal::NoMemory);
        }
    }
    Ok(elements)
}

/// The elements of the array with this name in the top table, of which there is one and are at most so many.
pub(crate) fn elements_in<R: ElementReader>(
    alloc: Global,
    reader: &R,
    document: &Table,
    name: &str,
    most: usize,
) -> Result<Sequence<R::Element>, RackRefusal>
    ensures count { IfOk result (λ xs. length xs ≤ most) }
    ensures array { GivesJudged (λ xs. xs) result (elements_judged (R.judged reader.now) name.now most (table_view document.now)) }
{
    let values = array_in(alloc, "", document, name, 1, most)?;
    elements_of(alloc, reader, name, values)
}
