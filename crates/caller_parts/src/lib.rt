//! What a caller of the core works with: calls and their replies, the setting, the program, where it may stand, and what an
//! instruction works on.
#![tactic(auto)]

pub mod call;
pub mod code;
pub mod counts;
pub mod fields;
pub mod limits;
pub mod local;
pub mod operands;
pub mod program;
pub mod replies;
pub mod routine;
pub mod setting;

pub use call::{Call, Replied, Reply, Running};
pub use code::{Code, Step};
pub use fields::FieldTable;
pub use program::Program;
pub use replies::Replies;
pub use routine::{AfterClear, AfterRetire, AnnounceReason, Announcing, MethodStart, Routine};
pub use setting::{Reclamation, Setting, SettingFault};
