//! The run of scripts that the turns of a schedule give.
#![tactic(auto)]

mod calls;
pub mod laws;
mod limits;
mod progress;
pub mod replaying;
mod stopping;
mod turns;

pub use caller_steps::{Call, Reply, Setting, SettingFault};
pub use core_entries::{Entry, Sign, Signs};
pub use core_ground::{LoadedTarget, PlainWords, Port};
pub use progress::Stop;
pub use replaying::{CallList, CoreState, ReadyReplay, ReplayError, replay};
pub use schedule_turns::{StepKind, Turn};
pub use stopping::whole_turns;
