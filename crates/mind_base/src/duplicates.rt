//! Values that are copied with memory of their own, and lists of such values.

ghost use Rattle.std.specs.Prelude.{◌≡◌, IfOk};

use crate::{NoMemory, Sequence};
use std::alloc::Global;

/// A value that is copied where there is memory for another.
pub trait Duplicate: Drop {
    /// An equal value.
    fn copy(&self, alloc: Global) -> Result<Self, NoMemory>
        ensures { IfOk result (λ copy. copy ≡ self.now) };
}

/// Equal values, in the same order.
pub fn copies_of<T: Duplicate>(alloc: Global, values: &[T]) -> Result<Sequence<T>, NoMemory>
    ensures { IfOk result (λ copies. copies ≡ values.now) }
{
    let mut copies = Sequence::new(alloc);
    for value in values {
        copies.push(value.copy(alloc)?)?;
    }
    Ok(copies)
}
