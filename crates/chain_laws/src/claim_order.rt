//! In which order slots are claimed for the first time, whatever the callers retire.

ghost use Rattle.chain_laws.specs.Laws.{OfAll};
ghost use Rattle.chain_laws.specs.claim_order.Frontier.{ClaimsStayOrdered};
ghost use Rattle.chain_laws.specs.claim_order.Stamps.{WordsStayWithin};

/// Whatever is retired, even twice, claims take a kind's slots that were never claimed in ascending order, and such a slot is as it was at the
/// start. If no slot is on top of a kind's chain, the kind's initial nodes and all claims together are at least as many as its slots.
pub fn claims_stay_ordered()
    ensures { OfAll ClaimsStayOrdered }
{}

/// Whatever is retired, each head's top names a slot of its kind or none, each link one of its slot's kind or none, and no head's phase is
/// past the phase word.
pub fn words_stay_within()
    ensures { OfAll WordsStayWithin }
{}
