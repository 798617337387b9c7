//! The laws of the table, with no code.

ghost use Rattle.rv32_decode.specs.Laws.{OneMeaning, OneWord, SpelledFits, EachFitSpelled};

/// A word has one meaning, an instruction one word, and the instructions that have a word are those whose
/// fields fit. It does nothing: what it ensures is the theorem.
pub fn one_word_one_meaning()
    ensures meaning { OneMeaning }
    ensures word { OneWord }
    ensures fits { SpelledFits }
    ensures each { EachFitSpelled }
{}
