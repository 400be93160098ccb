//! Tables over the places of a method, such as the registers that are set at each. A table that holds at the method's start
//! and is kept by each instruction says what holds along every path, so it shows without a search that a text is in normal
//! form.
#![tactic(auto)]

ghost use Rattle.closed_tables.specs.Laws.{TablesHold, TablesShowNormal};

/// What holds at a method's start, and is kept by each instruction, holds along every path.
pub fn tables_hold()
    ensures { TablesHold }
{}

/// A text with tables that are closed, and that show at each place that the rules are kept, is in normal form.
#[tactic(auto, using(crate::proofs::Normal::tables_show_normal))]
pub fn tables_show_normal()
    ensures { TablesShowNormal }
{}
