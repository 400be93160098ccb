//! Eight callers of a set on threads of their own, each with three rounds in which it inserts eight keys and removes them.

ghost use Rattle.script_plans.specs.Plans.{IsReady};

use crate::plans::planned;
use caller_steps::Reply;
use oa_core::Entry;
use oa_text::OpenGate;
use row_spelling::RowError;
use script_plans::Plan;
use std::alloc::{AllocError, Global};
use std::fmt::Write;
use std::thread::Threads;
use thread_runs::run_scripts;
use word_runner::Final;

/// How a run has ended, if it had memory.
fn end_of(ran: Result<Final, AllocError>) -> Option<Final> {
    match ran {
        Ok(end) => Some(end),
        Err(_) => None,
    }
}

#[tactic(auto, using(crate::proofs::Suits::plan_suits))]
fn run_plan<R: Threads + Sync>(rt: &R, alloc: Global, plan: Plan) -> Option<Final>
    requires ready { IsReady plan }
{
    let Plan {
        barred,
        setting,
        scripts,
        fuel,
    } = plan;
    let ran = run_scripts(rt, alloc, barred, setting, scripts.items(), fuel, &OpenGate);
    drop(scripts);
    end_of(ran)
}

/// What the entries at the end add up to.
#[derive(Clone, Copy)]
struct Tally {
    /// How often an insertion answered 1.
    inserted: u64,
    /// How often a removal answered 1.
    removed: u64,
    /// How many answers were neither 0 nor 1.
    others: u64,
    /// How many nodes were claimed.
    claims: u64,
    /// How many entries have all 48 replies, and run nothing.
    ended: u64,
}

fn counted(before: Tally, index: usize, reply: Reply) -> Tally {
    let mut tally = before;
    let inserts = index / 8 % 2 == 0;
    match reply {
        Reply::Number(0) => {}
        Reply::Number(1) if inserts => tally.inserted = before.inserted.saturating_add(1),
        Reply::Number(1) => tally.removed = before.removed.saturating_add(1),
        _ => tally.others = before.others.saturating_add(1),
    }
    tally
}

fn tally_of(before: Tally, entry: &Entry) -> Tally {
    let mut tally = before;
    tally.claims = before.claims.saturating_add(entry.claims());
    if entry.is_idle() && entry.replies().len() == 48 {
        tally.ended = before.ended.saturating_add(1);
    }
    for (index, reply) in entry.replies().iter().enumerate() {
        tally = counted(tally, index, *reply);
    }
    tally
}

fn tally_of_all(entries: &[Entry]) -> Tally {
    let mut tally = Tally {
        inserted: 0,
        removed: 0,
        others: 0,
        claims: 0,
        ended: 0,
    };
    for entry in entries {
        tally = tally_of(tally, entry);
    }
    tally
}

/// Each insertion took a node that was claimed for it, and each caller may keep one for its next.
fn are_claims_for(claims: u64, inserted: u64) -> bool {
    claims >= inserted && claims - inserted <= 8
}

/// What is told of the replies. Whoever is the last to touch a key removes it, so at the end as many were removed as inserted.
fn add_tally(out: &mut String, entries: &[Entry]) -> Result<(), RowError> {
    let tally = tally_of_all(entries);
    let ended = tally.ended == 8 && entries.len() == 8;
    let evened = tally.inserted == tally.removed;
    let some = tally.inserted >= 8;
    let claimed = are_claims_for(tally.claims, tally.inserted);
    let others = tally.others;
    Ok(writeln!(
        out,
        "ended {ended}, as many removed as inserted {evened}, at least 8 {some}, claims for them {claimed}, other replies {others}"
    )?)
}

/// Runs a document's scripts on threads, and tells what their replies add up to.
pub(crate) fn sharing<R: Threads + Sync>(
    rt: &R,
    alloc: Global,
    bytes: &[u8],
    out: &mut String,
) -> Result<(), RowError> {
    let Some(plan) = planned(alloc, bytes) else {
        return Err(RowError::Wrong);
    };
    match run_plan(rt, alloc, plan) {
        Some(end) => add_tally(out, end.entries.items()),
        None => Err(RowError::Wrong),
    }
}
