//! That spellings are read back.

ghost use Rattle.document_spelling.specs.SpellingLaws.{SpellingsAreRead, SpellingsArePlaced};

/// What is read of the spelling of a document is the same document, but for the lines of its calls.
pub fn spellings_are_read()
    ensures { SpellingsAreRead }
{}

/// What is read of the spelling of a document has its calls at the lines where they stand in it.
pub fn spellings_are_placed()
    ensures { SpellingsArePlaced }
{}
