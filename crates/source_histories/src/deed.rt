//! Deeds, and what is seen of the accesses of which they are told.

use source_machine::Standing;

/// What a call did: whose it is, its operation and its first argument, what it replies, and its moment, which is the place
/// of an event in the run. No number stands for the reply that there is nothing.
#[derive(Clone, Copy, PartialEq, Eq)]
pub struct Deed {
    pub caller: u32,
    pub op: u8,
    pub arg: u64,
    pub reply: Option<u64>,
    pub moment: u64,
}

/// What is remembered of a caller's generator run: the event at which it would turn out that the key is missing, and its
/// last load of the reference to the node after the one in hand.
#[derive(Clone, Copy)]
pub struct Notes {
    pub gap: u64,
    pub load: u64,
}

/// What is seen of an access: where the operation stood, its argument, which is in n0, and where it stands afterwards, if
/// it hasn't ended; whether n1 is less than n0 then; and the caller's last reply, if that is a number.
#[derive(Clone, Copy)]
pub struct Seen {
    pub before: Standing,
    pub arg: u64,
    pub after: Option<Standing>,
    pub passed: bool,
    pub reply: Option<u64>,
}

/// What is remembered, and the deed that is known now.
#[derive(Clone, Copy)]
pub struct Noted {
    pub notes: Notes,
    pub deed: Option<Deed>,
}
