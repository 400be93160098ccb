//! Rows worked out by hand on requests: the premises of the headline hold of a document of the list, and each request can be answered.
#![tactic(auto)]

ghost use Rattle.request_rows.specs.Rows.{PremiseRows, AnsweredRows};

/// The premises of the headline hold of a document, for each command that makes its calls.
pub fn premises_are_met()
    ensures { PremiseRows }
{
    set_source::laws::set_is_normal();
}

/// Each command can be answered on a document, and the two requests that read none too.
pub fn requests_can_be_answered()
    ensures { AnsweredRows }
{
    set_source::laws::set_is_normal();
}
