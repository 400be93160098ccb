//! The rule under which callers share a table of words: the words and what the seats know show one reachable state of the core.

ghost use Rattle.word_runner.specs.table_rule.Seen.{Fixed};
ghost use Rattle.word_runner.specs.table_rule.Laws.{StepsKeepRule, EntriesApart};

/// Whatever the callers did before, each kind of step keeps the rule and tells its seat what it is to know. So between any two
/// steps the words and the seats show one reachable state of the core, and what holds of every reachable state holds of the table.
/// Each step is counted in its seat's view, and a seat that is in use comes from another alone, which gives half of its parts away.
pub fn steps_keep_rule()
    ensures { (key : Fixed) → StepsKeepRule key }
{}

/// The entries of callers at rest have different numbers, below the count of callers: if there are as many entries as callers, they are
/// one for each number.
pub fn rests_have_all()
    ensures { EntriesApart }
{}
