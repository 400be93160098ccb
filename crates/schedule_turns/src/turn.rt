//! The turns in which a schedule has its callers make their steps.

/// A kind of access that a turn counts.
#[derive(Clone, Copy, PartialEq, Eq)]
pub enum StepKind {
    /// A load of a root or a field.
    Load,
    /// A check: the load of the caller's warning after a load of the text.
    Check,
    /// A compare-exchange of a root or a field.
    Exchange,
}

/// What one caller does before another caller's turn. Callers count from 0.
#[derive(Clone, Copy, PartialEq, Eq)]
pub enum Turn {
    /// So many steps.
    Step {
        caller: u32,
        count: u32,
    },
    /// Steps up to the access that is, from the start of the turn, this one by its kind; it isn't made.
    Upto {
        caller: u32,
        kind: StepKind,
        count: u32,
    },
    /// Steps until so many more operations have ended.
    Ops {
        caller: u32,
        count: u32,
    },
}
