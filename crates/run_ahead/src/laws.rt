//! How a core caller that walks through a method of compiled code is followed by the source machine.
//!
//! The core checks, guards and restarts on memory that is recycled (Cohen and Petrank, SPAA 2015). The source makes the
//! instructions of the text alone, on memory that never is, and its local code runs at once, so that it is ahead of the core
//! by what is local. The laws say how both stay together over each step. In each, `home` is the slot of each name, `Calm` says
//! that the caller wasn't warned, and memory is the source's.

ghost use Rattle.run_ahead.specs.LocalLaws.{LocalRunsAreFollowed, PassedChecksConfirm, GuardsPublish, WarnedAreFollowed};
ghost use Rattle.run_ahead.specs.AccessLaws.{LoadsAreFollowed, NewNodesAreFollowed, PutsAreFollowed, ExchangesAreFollowed, TestsAgree, OperandsAgree};
ghost use Rattle.run_ahead.specs.MethodLaws.{BeginsAreFollowed, CommitsAreFollowed, ListsAreMade, WrapUpsBegin, EndsAreFollowed, AgainIsFollowed, RestartsAreFollowed, GivingUpIsFollowed};
ghost use Rattle.run_ahead.specs.NameLaws.{MemoryIsTyped, CallersAreTyped, AccessesFindKinds, ListsFindKinds, StartsGetNothing, HopedAreKnown, KeptGuardsStay};

/// The core's local code, as far as it runs, is followed: the source stands where it stood, and the core comes to a check, a
/// guard, or an instruction at which the text's local code may stop.
pub fn local_runs_are_followed<Calm>()
    ensures { LocalRunsAreFollowed Calm }
{}

/// A check that passes is followed, and confirms what was loaded before it: each register of which anything is known holds what
/// the source's holds, and is trusted from then on; what was guarded is validated. The law assumes that the caller wasn't warned,
/// and that the names of which it speaks have different slots (Cohen and Petrank, SPAA 2015: a read is right if no warning
/// came before the check after it).
pub fn passed_checks_confirm<Calm>()
    ensures { PassedChecksConfirm Calm }
{}

/// A guard is followed, and publishes the name in its register.
pub fn guards_publish<Calm>()
    ensures { GuardsPublish Calm }
{}

/// A caller that is warned is followed as before; what it loaded is then no longer known to be right.
pub fn warned_are_followed<Calm, Later>()
    ensures { WarnedAreFollowed Calm Later }
{}

/// A load is followed, by an access of the source with name 0 that leaves memory as it is and gets the name that it finds. What
/// the core finds has to be right only if the caller wasn't warned.
pub fn loads_are_followed<Calm>()
    ensures { LoadsAreFollowed Calm }
{}

/// A `new` is followed, by an access with the new name; its guards are gone, on both sides.
pub fn new_nodes_are_followed<Calm>()
    ensures { NewNodesAreFollowed Calm }
{}

/// A put is followed, by an access with name 0.
pub fn puts_are_followed<Calm>()
    ensures { PutsAreFollowed Calm }
{}

/// An auxiliary exchange that succeeds in the core exactly if it does in the source is followed, by an access with name 0.
pub fn exchanges_are_followed<Calm>()
    ensures { ExchangesAreFollowed Calm }
{}

/// An exchange, auxiliary or of a commit's list, succeeds in the core exactly if it does in the source. The law assumes that its
/// operands agree, that the names that it compares have different slots, null among them, and that both sides find what agrees.
pub fn tests_agree()
    ensures { TestsAgree }
{}

/// If an instruction makes an exchange, what the exchange reads agrees on both sides, and each reference among its operands is
/// under a validated guard or null (Cohen and Petrank, SPAA 2015: what an exchange needs is protected before it).
pub fn operands_agree<Calm>()
    ensures { OperandsAgree Calm }
{}

/// A generator is followed from its begin.
pub fn begins_are_followed<Calm>()
    ensures { BeginsAreFollowed Calm }
{}

/// If the core caller comes to the commit of a generator, the source's caller stands before the list's first exchange (Timnat
/// and Petrank, PPoPP 2014: a generator prepares a list of exchanges, and an executor makes them).
pub fn commits_are_followed<Calm>()
    ensures { CommitsAreFollowed Calm }
{}

/// The executor makes the exchanges of the list in order, up to the first that fails, and the wrap-up begins (Timnat and Petrank,
/// PPoPP 2014).
pub fn lists_are_made()
    ensures { ListsAreMade }
{}

/// A wrap-up is followed from its start, with what it carries over from the commit and the count of exchanges that were made. It
/// begins with nothing unchecked, so a warning before it doesn't matter.
pub fn wrap_ups_begin<Calm, Later>()
    ensures { WrapUpsBegin Calm Later }
{}

/// At its end the source replies what the core's register holds, or begins the operation again: at once if the wrap-up has
/// made no access, else by an access with name 0 that leaves memory as it is.
pub fn ends_are_followed<Calm>()
    ensures { EndsAreFollowed Calm }
{}

/// After `again` the generator is followed from its start.
pub fn again_is_followed<Calm>()
    ensures { AgainIsFollowed Calm }
{}

/// A method that begins again is followed from its start, with a method run that has got nothing. The source restarts if
/// that is enabled. If it isn't, a wrap-up without an access has ended already, and stands where a restart would lead it.
pub fn restarts_are_followed<Calm, Later>()
    ensures { RestartsAreFollowed Calm Later }
{}

/// A caller may give up at a `new`.
pub fn giving_up_is_followed<Calm>()
    ensures { GivingUpIsFollowed Calm }
{}

/// Along every source run of a text in normal form roots and fields hold values of their kinds, and registers name nodes of kinds
/// that they may have where their callers stand.
pub fn memory_is_typed()
    ensures memory { MemoryIsTyped }
    ensures callers { CallersAreTyped }
{}

/// Then each register that an access asks to be of a kind names null or a node of that kind, and so does each that an exchange of
/// the executor's list asks.
pub fn accesses_find_kinds<Calm>()
    ensures accesses { AccessesFindKinds Calm }
    ensures lists { ListsFindKinds }
{}

/// A passed check speaks of null, of names that the method run has got, and of those that a wrap-up keeps; a run begins with
/// no name got. No instruction of a wrap-up takes the guard of a kept name away.
pub fn hoped_are_known()
    ensures starts { StartsGetNothing }
    ensures known { HopedAreKnown }
    ensures guards { KeptGuardsStay }
{}
