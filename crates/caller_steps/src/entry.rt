//! A caller's entry.

ghost use Rattle.std.specs.Prelude.{◌≡◌, ◌-◌, length, map, IfOk};
ghost use Rattle.caller_parts.specs.Pairing.{reply_of, run_of};
ghost use Rattle.caller_steps.specs.Entries.{idle_entry, is_idle, one_more};
ghost use Rattle.caller_steps.specs.After.{taken};

use crate::stand::Stand;
use caller_parts::{
    AnnounceReason, Announcing, Call, MethodStart, Reclamation, Replies, Reply, Running,
};
use guard_words::row::GuardRow;
use norm_lang::registers::{Registers, starting_registers};
use phase_pools::claim::ClaimState;
use std::alloc::{AllocError, Global};
use std::marker::Model;

/// The method run of a caller, which claims and retirements leave alone.
#[derive(Drop)]
pub struct Hand {
    /// Whether the method is the wrap-up, and not the generator.
    pub wrapup: bool,
    /// The next instruction, counted from 0.
    pub at: usize,
    /// What the registers hold.
    pub registers: Registers,
    /// What they held at the wrap-up's start.
    pub started: Registers,
    /// The word that the caller's own warning had when the method run began.
    pub seen: u64,
    /// The guards that the caller has published.
    pub guards: GuardRow,
    /// Whether the present wrap-up run has made a load or an exchange of the text.
    pub accessed: bool,
}

/// What a caller counts over all its calls; a count stays at 2^64 - 1.
#[derive(Clone, Copy)]
pub struct Counts {
    /// Checks that failed.
    pub restarts: u64,
    /// Slots that were claimed.
    pub claims: u64,
}

/// A caller of the core, with room for its replies.
///
/// The parts are nested by what changes them: the call and its steps, the method run, the cradles, where the caller stands,
/// the replies, and the counts.
#[derive(Drop)]
pub struct Entry {
    /// The caller's number, from 0 on.
    pub number: u32,
    /// The call that runs, or the last one.
    pub running: Running,
    /// Its method run.
    pub hand: Hand,
    /// The slots that were claimed and aren't published yet, four for each kind, by the number of the `new` among those of its kind; 0
    /// for none.
    pub cradles: [u32; 16],
    /// Where the caller stands, but for the claim.
    pub stand: Stand,
    /// The claim that it makes if it stands in one. Elsewhere no contract says what stands here.
    pub claim: Option<ClaimState>,
    /// The replies so far.
    pub replies: Replies,
    /// What it has counted.
    pub counts: Counts,
}

impl Model for Entry {
    ghost use Rattle.caller_steps.specs.Entries.{RoomyEntry};
    ghost use Rattle.caller_steps.specs.Stands.{routine_of};

    ghost Value = { RoomyEntry };

    ghost view = { λ e. record { core = record { number = e.number; running = e.running; hand = e.hand; cradles = e.cradles; routine = routine_of e.stand e.claim; replies = e.replies.items; counts = e.counts }; room = e.replies.room } };
}

/// A count that stays at its type's end.
pub fn one_more(count: u64) -> u64
    ensures { result ≡ one_more count }
{
    count.saturating_add(1)
}

impl Entry {
    /// An idle entry of a caller, with room for so many replies.
    ///
    /// # Errors
    /// Memory ran out.
    pub fn new(alloc: Global, number: u32, room: usize) -> Result<Entry, AllocError>
        ensures { IfOk result (λ e. e ≡ record { core = idle_entry number; room = room }) }
    {
        let replies = Replies::with_room(alloc, room)?;
        Ok(Entry {
            number,
            running: Running {
                call: Call {
                    op: 0,
                    args: [0; 4],
                },
                steps: 0,
            },
            hand: Hand {
                wrapup: false,
                at: 0,
                registers: starting_registers(&[0; 4]),
                started: starting_registers(&[0; 4]),
                seen: 0,
                guards: GuardRow::empty(),
                accessed: false,
            },
            cradles: [0; 16],
            stand: Stand::Idle,
            claim: None,
            replies,
            counts: Counts {
                restarts: 0,
                claims: 0,
            },
        })
    }

    /// Another number for the caller.
    pub fn renumber(&mut self, number: u32)
        ensures { self.new ≡ record self.old { core = record self.old.core { number = number } } }
    {
        self.number = number;
    }

    /// Takes a call: the entry stands at the start of its generator, with the call's arguments in its registers, before the first access
    /// of the scheme.
    pub fn begin(&mut self, by: Reclamation, call: Call)
        ensures { self.new ≡ record self.old { core = taken by call self.old.core } }
    {
        self.running = Running { call, steps: 0 };
        self.hand.wrapup = false;
        self.hand.at = 0;
        self.hand.registers = starting_registers(&call.args);
        self.hand.started = starting_registers(&[0; 4]);
        self.stand = match by {
            Reclamation::Optimistic => Stand::LoadSeen(MethodStart::Begin),
            Reclamation::Epochs => Stand::Announces(Announcing::Loads(AnnounceReason::Begin)),
        };
    }

    /// Whether no call runs.
    pub fn is_idle(&self) -> bool
        ensures { result ≡ is_idle self.now.core.routine }
    {
        matches!(self.stand, Stand::Idle)
    }

    /// The replies in order.
    pub fn answers(&self) -> &[Reply]
        ensures { result.now ≡ map reply_of self.now.core.replies }
    {
        self.replies.replies()
    }

    /// The calls that got the replies, each with the steps made for it.
    pub fn answered(&self) -> &[Running]
        ensures { result.now ≡ map run_of self.now.core.replies }
    {
        self.replies.runs()
    }

    /// How many more replies there is room for.
    pub fn spare(&self) -> usize
        ensures { result ≡ self.now.room - length self.now.core.replies }
    {
        self.replies.spare()
    }
}
