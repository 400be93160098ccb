//! Rows worked out by hand on corners of a caller and of the core that no whole run happens to meet: a definition that is turned there
//! breaks a row.
#![tactic(auto)]

ghost use Rattle.corner_rows.specs.ObjectRows.{ObjectRows};
ghost use Rattle.corner_rows.specs.LaterRows.{LaterRows};
ghost use Rattle.corner_rows.specs.FourRows.{FourRows};
ghost use Rattle.corner_rows.specs.WideRows.{WideRows};
ghost use Rattle.corner_rows.specs.CountRows.{CountRows, StatusRows};
ghost use Rattle.corner_rows.specs.LayoutRows.{AddressRows, GuardWordRows};
ghost use Rattle.corner_rows.specs.EventRows.{EventRows};
ghost use Rattle.corner_rows.specs.CountedTurns.{WantedRows, CheckRows, OverCallsRows};

/// Exchanges that retire their object, marked and not, and a slow sweep that meets a slot retired after the phase that it announces.
pub fn retired_slots()
    ensures objects { ObjectRows }
    ensures later { LaterRows }
{}

/// Four `new` in one path with their cradles, in a list of four exchanges that goes through and in one that fails; numbers that equal a
/// slot; a slot in two cradles. And nodes of three and four fields, and calls with three and four arguments.
pub fn long_paths()
    ensures four { FourRows }
    ensures wide { WideRows }
{}

/// Counts at their type's end, and each status that a sweep may meet.
pub fn counts_and_statuses()
    ensures counts { CountRows }
    ensures statuses { StatusRows }
{}

/// Addresses with three callers, and the words that a guard of the middle one stores.
pub fn addresses()
    ensures addresses { AddressRows }
    ensures guards { GuardWordRows }
{}

/// Events that are enabled, and events that aren't.
pub fn enabled_events()
    ensures { EventRows }
{}

/// Turns that begin where an access of their kind is wanted, that count several, and that go on over a call's end.
pub fn counted_turns()
    ensures wanted { WantedRows }
    ensures checks { CheckRows }
    ensures over_calls { OverCallsRows }
{}
