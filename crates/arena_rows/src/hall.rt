//! Halls, whose callers go move by move.

ghost use Rattle.std.specs.Prelude.{IfSome};

use row_spelling::RowError;
use std::alloc::Global;
use word_runner::Outcome;

/// An arena, and the scripts of its callers.
pub(crate) trait Hall: Drop {
    type Blank: Drop;

    type Caller: Drop;

    type Rest: Drop;

    /// A blank of the hall.
    ghost has_blank: { Self → Self.Blank → Type 0 };

    /// A caller of the hall.
    ghost has_caller: { Self → Self.Caller → Type 0 };

    /// Callers of the hall at rest.
    ghost has_rest: { Self → Self.Rest → Type 0 };

    /// Another blank of the same hall.
    fn second(&self, alloc: Global, blank: &mut Self::Blank) -> Option<Self::Blank>
        requires came { has_blank self.now blank.old }
        ensures came { has_blank self.now blank.new }
        ensures other { IfSome result (λ other. has_blank self.now other) };

    /// A blank becomes a caller.
    fn enter(&self, blank: Self::Blank) -> Option<Self::Caller>
        requires came { has_blank self.now blank }
        ensures came { IfSome result (λ caller. has_caller self.now caller) };

    /// The caller takes the call at this index of its script.
    fn operate(&self, caller: &mut Self::Caller, index: usize, budget: u64) -> Option<Outcome>
        requires came { has_caller self.now caller.old }
        ensures came { has_caller self.now caller.new };

    fn resume(&self, caller: &mut Self::Caller, budget: u64) -> Option<Outcome>
        requires came { has_caller self.now caller.old }
        ensures came { has_caller self.now caller.new };

    /// Tells how a caller stands.
    fn add_caller(&self, out: &mut String, caller: &Self::Caller) -> Result<(), RowError>;

    /// One caller rests.
    fn rest_one(&self, caller: Self::Caller) -> Self::Rest
        requires came { has_caller self.now caller }
        ensures came { has_rest self.now result };

    /// Two callers rest.
    fn rest_two(&self, one: Self::Caller, two: Self::Caller) -> Self::Rest
        requires one { has_caller self.now one }
        requires two { has_caller self.now two }
        ensures came { has_rest self.now result };

    /// Closes the hall, and tells the phase and the entries at the end. If a caller doesn't rest, the row is wrong.
    fn close(self, rest: Self::Rest, out: &mut String) -> Result<(), RowError>
        requires came { has_rest self rest };
}

/// A hall's two callers, if the second has entered too.
fn paired<H: Hall>(
    hall: &H,
    one: H::Caller,
    two: Option<H::Caller>,
) -> Option<(H::Caller, H::Caller)>
    requires one { H.has_caller hall.now one }
    requires two { IfSome two (λ caller. H.has_caller hall.now caller) }
    ensures { IfSome result (λ p. H.has_caller hall.now p.0 × H.has_caller hall.now p.1) }
{
    match two {
        Some(two) => Some((one, two)),
        None => None,
    }
}

/// Two blanks of a hall become callers.
fn both_entered<H: Hall>(
    hall: &H,
    blank: H::Blank,
    other: H::Blank,
) -> Option<(H::Caller, H::Caller)>
    requires blank { H.has_blank hall.now blank }
    requires other { H.has_blank hall.now other }
    ensures { IfSome result (λ p. H.has_caller hall.now p.0 × H.has_caller hall.now p.1) }
{
    let one = hall.enter(blank)?;
    let two = hall.enter(other);
    paired(hall, one, two)
}

/// A blank and another of its hall become callers.
pub(crate) fn both<H: Hall>(
    alloc: Global,
    hall: &H,
    blank: H::Blank,
) -> Option<(H::Caller, H::Caller)>
    requires came { H.has_blank hall.now blank }
    ensures { IfSome result (λ p. H.has_caller hall.now p.0 × H.has_caller hall.now p.1) }
{
    let mut blank = blank;
    let other = hall.second(alloc, &mut blank)?;
    both_entered(hall, blank, other)
}
