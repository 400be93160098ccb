//! Scripts on threads, by halves of the list of callers.

ghost use Rattle.std.specs.Prelude.{◌<◌};
ghost use Rattle.std.specs.Thread.{IsSync};
ghost use Rattle.thread_runs.specs.Scripts.{RanScript, Ready, AllFresh, Fresh, Finished, AllFinished};

use caller_steps::Call;
use norm_lang::list::Listed;
use oa_text::Gate;
use std::thread::{Threads, join_mut};
use word_runner::{Arena, Caller, Outcome};

/// The calls of a caller in order.
pub type CallList = Listed<Call>;

/// Runs the calls in order, up to one that was spent. Before each it passes the gate.
pub(crate) fn run_script<G: Gate>(
    arena: &Arena,
    gate: &G,
    script: &[Call],
    fuel: u64,
    caller: &mut Caller,
)
    requires ready { Ready arena.now script.now caller.old }
    requires fuel { 0 < fuel }
    ensures ran { RanScript arena.now script.now fuel caller.old caller.new }
{
    for (index, call) in script.iter().enumerate() {
        gate.pass(caller.number(), index as u32);
        if let Outcome::Spent = caller.operate(arena, call.op, call.args, fuel) {
            return;
        }
    }
}

/// The script with the caller's number.
fn run_own<G: Gate>(arena: &Arena, gate: &G, scripts: &[CallList], fuel: u64, caller: &mut Caller)
    requires fresh { Fresh arena.now scripts.now caller.old }
    requires fuel { 0 < fuel }
    ensures ran { Finished arena.now scripts.now fuel caller.new }
{
    let number = caller.number();
    run_script(arena, gate, scripts[number as usize].items(), fuel, caller);
}

/// Each caller runs its script, half of them in a thread of their own if one can be made.
pub(crate) fn run_all<R: Threads + Sync, G: Gate + Sync>(
    rt: &R,
    arena: &Arena,
    gate: &G,
    scripts: &[CallList],
    fuel: u64,
    callers: &mut [Caller],
)
    requires fresh { AllFresh arena.now scripts.now callers.old }
    requires fuel { 0 < fuel }
    ensures { AllFinished arena.now scripts.now fuel callers.new }
{
    if callers.is_empty() {
        return;
    }
    if callers.len() == 1 {
        run_own(arena, gate, scripts, fuel, &mut callers[0]);
        return;
    }
    let (front, back) = callers.split_at_mut(callers.len() / 2);
    join_mut(
        rt,
        &mut ||
            requires { IsSync R.row × IsSync G.row × (0 < fuel) × AllFresh arena.now scripts.now front.now }
            ensures { AllFinished arena.entry.now scripts.entry.now fuel front.exit.now }
        { run_all(rt, arena, gate, scripts, fuel, front) },
        &mut ||
            requires { IsSync R.row × IsSync G.row × (0 < fuel) × AllFresh arena.now scripts.now back.now }
            ensures { AllFinished arena.entry.now scripts.entry.now fuel back.exit.now }
        { run_all(rt, arena, gate, scripts, fuel, back) },
    );
}
