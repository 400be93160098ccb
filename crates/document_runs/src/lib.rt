//! Documents that are run or replayed: the answer to each call of their scripts, and the text that tells it. The laws of `report_laws` say
//! what the answers tell of the run.
#![tactic(auto)]

mod building;
mod epochs;
mod printing;
mod ready;
mod report;
mod running;
mod stopping;

pub use epochs::epoch_document;
pub use printing::{count_short, is_partial, show_report};
pub use report::{Answer, Report, ReportLine, ReportLines};
pub use running::{replay_document, run_document};
pub use stopping::whole_turns;
