//! That what is printed is read back.

ghost use Rattle.c_printer.specs.Laws.{NamesDiffer, TokensReadBack, LinesReadBack, HeadersReadBack};
ghost use Rattle.c_printer.specs.Lvalues.{LvaluesStandApart};

/// The names of locals differ from each other, and from all else that a function names.
pub fn names_differ()
    ensures { NamesDiffer }
{}

/// The tokens of a line say that line and no other.
pub fn tokens_read_back()
    ensures { TokensReadBack }
{}

/// A printed line says the line that it was printed from.
pub fn lines_read_back()
    ensures { LinesReadBack }
{}

/// The bytes of a header say the lines of the claims and operations that it was printed from.
pub fn headers_read_back()
    ensures { HeadersReadBack }
{}

/// The printed place of each word is an element inside its array, different words are different elements, and each word but a field of null
/// is one element, whatever names it.
pub fn lvalues_stand_apart()
    ensures { LvaluesStandApart }
{}
