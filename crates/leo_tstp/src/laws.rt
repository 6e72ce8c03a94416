//! Laws of the words of derivations, each the contract of a function that does nothing.

ghost use Rattle.leo_tstp.specs.Laws.{NewNames, PrintedWords};

/// The names of abbreviations begin with the first of `leo_`, `leo__` and so on with which no atom begins.
pub fn names_are_new()
    ensures { NewNames }
{}

/// Where a derivation's base types and symbols have names, and these names are such as tokens say, the tokens of its text
/// have exactly the words that stand in `printed_words`.
pub fn printed_texts_have_words()
    ensures { PrintedWords }
{}
