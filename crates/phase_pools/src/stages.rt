//! Where a routine stands: before which access, and by which scheme.

/// How a sweep deals with the other callers.
#[derive(Clone, Copy)]
pub enum Scheme {
    /// It raises each caller's warning, and gathers what their guards name (Cohen and Petrank, SPAA 2015).
    Warned,
    /// It loads the phase that each caller has announced in its warning, 0 for none, and recycles what was retired before all of
    /// them and before the phase to which it raises, as epochs do (Fraser, "Practical Lock-Freedom", 2004). The number is that of the
    /// sweep's own caller.
    Announced(u32),
}

/// A sweep before an access.
#[derive(Clone, Copy)]
pub enum SweepStage {
    /// The load of the phase.
    ReadPhase,
    /// The exchange from this phase to the next.
    RaisePhase(u64),
    /// The access to this caller's warning.
    Warn(u32),
    /// The load of the hazard of this caller and register.
    ReadHazard(u32, u32),
    /// The load of this slot's status.
    ReadStatus(u32),
    /// The exchange that makes this slot ready, which was retired in this phase.
    MakeReady(u32, u64),
    /// The load of the head of this kind, to push this slot, which is of the kind and which the sweep made ready.
    PushHead(u32, u32),
    /// The store of this slot's link: the head had this phase, and on top the other slot, 0 for none.
    PushLink(u32, u64, u32),
    /// The exchange that puts a slot on top in the chain of its kind: the kind, the slot, the phase that the head had, and what it
    /// had on top, 0 for none.
    PushTop(u32, u32, u64, u32),
}

/// A claim before an access: of a look, or of a sweep.
#[derive(Clone, Copy)]
pub enum ClaimStage {
    /// The load of the head of the claim's kind.
    ReadHead,
    /// The load of the top slot's link: the head had this phase, and this slot on top.
    ReadLink(u64, u32),
    /// The exchange that takes the top slot: the head had this phase, and this slot on top, whose link named the last one.
    Take(u64, u32, u32),
    /// The store of the status of the slot that was taken: the head had this phase, and this slot on top.
    StoreUsed(u64, u32),
    /// The store of 0 in the own warning, whose caller's number this is: a caller that announces withdraws before its first sweep.
    Withdraw(u32),
    /// The access that the sweep wants.
    Sweeps,
}

/// A retirement before an access.
#[derive(Clone, Copy)]
pub enum RetireStage {
    /// The load of the phase.
    ReadPhase,
    /// The store of the status, with this phase.
    StoreStatus(u64),
}
