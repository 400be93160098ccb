//! What a document asks of its callers: its text compiled, the setting of the row, and the calls of each caller. Or why it
//! can't be run.
#![tactic(auto)]

mod calls;
mod epoch_plan;
mod fault;
mod judged;
mod limits;
mod plan;
mod setting;
mod shape;

pub use epoch_plan::{EpochPlan, epoch_plan_of};
pub use fault::{RunFault, ShapeFault};
pub use judged::readied;
pub use plan::{CallList, CallLists, Plan, plan_of};
