//! Rows worked out by hand on calls of the shipped texts: how many bear a name, and which calls a workload makes; and on
//! reports: one of two callers, and such as have a legal history or have none.
#![tactic(auto)]

ghost use Rattle.shipped_rows.specs.LegalRows.{LegalRows};
ghost use Rattle.shipped_rows.specs.NamedRows.{NamedRows};
ghost use Rattle.shipped_rows.specs.ReportRows.{ReportRows};
ghost use Rattle.shipped_rows.specs.WorkloadRows.{WorkloadRows, PaddedRows};

/// Calls of the list and of the queue by their names.
pub fn named_calls()
    ensures { NamedRows }
{}

/// The documents of a workload, call by call, and a call's words.
pub fn workload_calls()
    ensures workload { WorkloadRows }
    ensures padded { PaddedRows }
{}

/// A report whose callers' claims together are more than a word holds.
pub fn reports()
    ensures { ReportRows }
{}

/// Reports of a set and of a queue that have a legal history, and such as have none.
pub fn histories()
    ensures { LegalRows }
{}
