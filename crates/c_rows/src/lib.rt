//! Rows worked out by hand, which the lines of C and their meaning are held against: values and what strays, functions that call each other, and
//! the accesses of claims, alone on rows and beside other callers. A line that is wrong where a row looks breaks that row.
#![tactic(auto)]

ghost use Rattle.c_rows.specs.LineRows.{ValueRows, StrayRows};
ghost use Rattle.c_rows.specs.ThreadRows.{ThreadRows};
ghost use Rattle.c_rows.specs.ClaimRows.{ClaimRows};
ghost use Rattle.c_rows.specs.BesideRows.{BesideRows};

/// Values of one operation, of numbers, locals and what the pool keeps.
pub fn value_rows()
    ensures { ValueRows }
{}

/// Lines that stray, each beside one that doesn't.
pub fn stray_rows()
    ensures { StrayRows }
{}

/// A function that calls another, and what stays between calls.
pub fn thread_rows()
    ensures { ThreadRows }
{}

/// Claims of one, two and four kinds, alone on the words of a row.
pub fn claim_rows()
    ensures { ClaimRows }
{}

/// Claims that are told what other callers left.
pub fn beside_rows()
    ensures { BesideRows }
{}
