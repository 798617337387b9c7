//! Why a line is no instruction.

use plain_text::LineRefusal;

/// What is wrong with a line, in the order in which it is looked for: a byte that may not stand in a
/// text; a label that is badly formed or that an earlier line defines; a name of no item; another number or
/// form of operands; a label that no line defines; a number or a target outside its place; and an item that
/// would be the 16,385th. `Empty` is of the whole text: it has no item.
#[derive(Clone, Copy, Debug, PartialEq, Eq)]
pub enum TextFault {
    Text,
    Label,
    Word,
    Operand,
    Target,
    Range,
    Words,
    Empty,
}

/// Why a text was not assembled: its first line with a fault, counted from 1 (0 for an empty text), or
/// want of memory.
pub type TextRefusal = LineRefusal<TextFault>;
