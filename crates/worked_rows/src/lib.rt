//! Rows worked out by hand, which the definitions of the source machine, of the normal form and of compiled code are held
//! against: each says of one small text, run or target what is so. A definition that is wrong where a row looks breaks that row.
#![tactic(auto)]

ghost use Rattle.worked_rows.specs.ExchangeRows.{ExchangeRows};
ghost use Rattle.worked_rows.specs.KindRows.{KindRows};
ghost use Rattle.worked_rows.specs.MethodRows.{MethodRows};
ghost use Rattle.worked_rows.specs.NormalFormRows.{NormalFormRows};
ghost use Rattle.worked_rows.specs.SchemeRows.{BarrierRows, CheckRows, QueueRows};
ghost use Rattle.worked_rows.specs.TargetRows.{FlawRows, ErasingRows};
ghost use Rattle.worked_rows.specs.TwoKindRows.{TwoKindRows};
ghost use Rattle.worked_rows.specs.TypedRows.{TypedRows};
ghost use Rattle.worked_rows.specs.ValueRows.{ValueRows};

/// Exchanges, beginning again, loads and local instructions, in runs of the source machine, and nodes of two kinds.
#[tactic(auto, using(crate::proofs::Exchanges::exchange_rows, crate::proofs::Methods::method_rows, crate::proofs::Values::value_rows, crate::proofs::TwoKinds::two_kind_rows))]
pub fn source_machine_rows()
    ensures exchanges { ExchangeRows }
    ensures methods { MethodRows }
    ensures values { ValueRows }
    ensures kinds { TwoKindRows }
{}

/// What breaks the rules N3, N4, N6, N8 and N11 to N13, what doesn't, and what the tests of one instruction find.
#[tactic(auto, using(crate::proofs::BrokenRules::normal_form_rows, crate::proofs::KindTables::kind_rows))]
pub fn normal_form_rows()
    ensures rules { NormalFormRows }
    ensures kinds { KindRows }
{}

/// Flaws of compiled code, and where a target erases differently.
#[tactic(auto, using(crate::proofs::SpoiltTargets::flaw_rows, crate::proofs::OtherTargets::erasing_rows))]
pub fn target_rows()
    ensures flaws { FlawRows }
    ensures erasing { ErasingRows }
{}

/// What the second scheme makes of small methods and of the queue, and beside which instructions it puts checks.
#[tactic(auto, using(crate::proofs::CompiledRows::barrier_rows, crate::proofs::CompiledRows::check_rows, crate::proofs::CompiledRows::queue_rows))]
pub fn scheme_rows()
    ensures barriers { BarrierRows }
    ensures checks { CheckRows }
    ensures queue { QueueRows }
{}

/// Typed memory and typed callers in a run over two kinds of nodes: the laws' premises are met there.
#[tactic(auto, using(crate::proofs::Typed::typed_rows))]
pub fn typed_rows()
    ensures { TypedRows }
{}
