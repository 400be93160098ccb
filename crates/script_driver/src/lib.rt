//! Documents that are run or replayed, with all that their reports tell of the run; and a workload: two documents are made from two numbers
//! and run, and two lines say what their answers add up to.
#![tactic(auto)]

pub mod laws;
mod parts;
pub mod report_laws;
mod rounds;
mod running;
mod tallies;
mod workload;

pub use document_runs::{
    Answer, Report, ReportLine, ReportLines, count_short, is_partial, show_report,
};
pub use document_spelling::show_document;
pub use documents::{Document, Numbers, Script, ScriptCall, Scripts, Turns, read_document};
pub use parts::workload_document;
pub use running::{epoch_document, replay_document, run_document};
pub use script_plans::{RunFault, ShapeFault};
pub use tallies::{is_short, show_workload};
pub use workload::{WorkloadReport, run_workload};
