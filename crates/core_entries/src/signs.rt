//! What a step of an entry gives to the source machine.

ghost use Rattle.std.specs.Prelude.{◌≡◌, ◌≤◌, ◌<◌, ◌^◌, length, option_copied};
ghost use Rattle.caller_parts.specs.Codes.{code_shown, shown_at};
ghost use Rattle.caller_parts.specs.Operands.{AreSlots, with_word};
ghost use Rattle.caller_parts.specs.Spared.{restart_spares};
ghost use Rattle.caller_steps.specs.Entries.{op_of, code_in, instr_in};
ghost use Rattle.caller_steps.specs.Belongs.{plain_has_access};
ghost use Rattle.caller_steps.specs.Clearing.{restart_next};
ghost use Rattle.caller_steps.specs.Asking.{CanAccept, IsRegister};
ghost use Rattle.phase_pools.specs.Pools.{retire_accepts};
ghost use Rattle.core_entries.specs.StepSigns.{step_signs};
ghost use Rattle.core_entries.specs.StepRuns.{start_named, plain_named, check_named, check_named_by, instr_named, list_named, end_named, stores_more, fresh_named, reason_named, announcing_named, first_sign, next_run, method_run, restart_run, restart_after, check_run, check_run_by, guard_run_by, retire_run, cas_run, plain_run, instr_run, retired_run, zeroed_run, announcing_run, run_after, plain_ends, stop_ends, code_ends, run_ends, signs_of};

use caller_parts::local::run_target;
use caller_parts::operands::{
    exchange_at, kind_made, list_of, put_new, put_word, slot_in, succeeds, to_retire,
};
use caller_parts::{
    AfterRetire, AnnounceReason, Announcing, Code, MethodStart, Program, Reclamation, Step,
};
use caller_steps::{Entry as State, Setting, Stand};
use norm_lang::registers::{Registers, starting_registers};
use norm_lang::text::{CasEntry, Instr, Reg};
use phase_pools::access::{Access, ClaimEnd};
use phase_pools::retire::RetireState;
use std::marker::Model;

/// What a step tells the source machine.
#[derive(Clone, Copy, Debug, PartialEq, Eq)]
pub enum Sign {
    /// The call begins.
    Begin,
    /// A load, a put or an exchange of the text, also on a null object.
    Access,
    /// A `new` has made its node.
    Fresh,
    /// The method run begins again, where the source may do so.
    Restart,
    /// The end of an empty list, or that of a wrap-up run that has made a load or an exchange of the text.
    End,
    /// The call is given up: its claim found no slot.
    Full,
    /// The call is given up: a sweep found this phase, which is the last one.
    Phases(u64),
}

/// The signs of a step, in order: that of its access, and that of an end to which its local code comes.
#[derive(Drop)]
pub struct Signs {
    list: [Sign; 2],
    count: usize,
}

impl Model for Signs {
    ghost use Rattle.std.specs.Prelude.{◌≡◌, ◌≤◌, List, length, take};
    ghost use Rattle.core_entries.specs.declared.signs.Sign.{Sign};

    ghost Value = { List Sign };

    ghost view = { λ s. take s.count s.list };

    ghost invariant = { λ s. (s.count ≤ 2) × (length s.list ≡ 2) };
}

impl Signs {
    /// That of the access, if it has one, and that of an end.
    pub(crate) fn of(first: Option<Sign>, ends: bool) -> Signs
        ensures { result ≡ signs_of first ends }
    {
        match first {
            None => Signs {
                list: [Sign::End, Sign::End],
                count: ends as usize,
            },
            Some(sign) => Signs {
                list: [sign, Sign::End],
                count: 1 + ends as usize,
            },
        }
    }

    /// The signs: at most two.
    pub fn items(&self) -> &[Sign]
        ensures same { result.now ≡ self.now }
        ensures few { length result.now ≤ 2 }
    {
        &self.list[..self.count]
    }
}

/// Local code that runs after an access: its method, whether that has made an access, and where it begins.
#[derive(Clone, Copy)]
pub(crate) struct Run {
    pub(crate) wrapup: bool,
    pub(crate) accessed: bool,
    pub(crate) at: usize,
    pub(crate) registers: Registers,
}

fn code_in<'a>(state: &State, program: &Program<'a>) -> Code<'a>
    ensures { code_shown result ≡ code_in program.now state.now.core }
{
    program.code(state.running.call.op, state.hand.wrapup)
}

fn instr_in<'a>(state: &State, program: &Program<'a>) -> Option<Step<'a>>
    ensures { shown_at result ≡ instr_in program.now state.now.core }
{
    code_in(state, program).at(state.hand.at)
}

fn start_named(why: MethodStart) -> Sign
    ensures { result ≡ start_named why }
{
    match why {
        MethodStart::Begin => Sign::Begin,
        MethodStart::WrapUp | MethodStart::Again => Sign::Restart,
    }
}

/// Whether an instruction makes an access of the text.
fn has_access(instr: &Instr) -> bool
    ensures { result ≡ plain_has_access instr.now }
{
    matches!(
        instr,
        Instr::LoadRoot(..)
            | Instr::LoadPick(..)
            | Instr::LoadField(..)
            | Instr::Put(..)
            | Instr::Cas(..)
    )
}

fn plain_named(accesses: bool) -> Option<Sign>
    ensures { result ≡ plain_named accesses }
{
    if accesses { Some(Sign::Access) } else { None }
}

pub(crate) fn check_named(passes: bool) -> Option<Sign>
    ensures { result ≡ check_named passes }
{
    if passes { None } else { Some(Sign::Restart) }
}

fn check_named_by(by: Reclamation, passes: bool) -> Option<Sign>
    ensures { result ≡ check_named_by by passes }
{
    match by {
        Reclamation::Optimistic => check_named(passes),
        Reclamation::Epochs => None,
    }
}

fn instr_named(by: Reclamation, instr: Option<Step>, seen: u64, word: u64) -> Option<Sign>
    ensures { result ≡ instr_named by (shown_at instr.entry) seen word }
{
    match instr {
        None => None,
        Some(Step::Plain(instr)) => plain_named(has_access(instr)),
        Some(Step::Check) => check_named_by(by, word == seen),
        Some(Step::Guard(_)) => None,
    }
}

fn list_named(exchange: Option<&CasEntry>) -> Option<Sign>
    ensures { result ≡ list_named (option_copied exchange.entry) }
{
    match exchange {
        None => None,
        Some(_) => Some(Sign::Access),
    }
}

fn end_named(end: Option<ClaimEnd>) -> Option<Sign>
    ensures { result ≡ end_named end }
{
    match end {
        Some(ClaimEnd::Full) => Some(Sign::Full),
        Some(ClaimEnd::PhasesOver(p)) => Some(Sign::Phases(p)),
        Some(ClaimEnd::Claimed(_)) | None => None,
    }
}

/// Whether a `new` has further fields to store after this one.
fn stores_more(state: &State, program: &Program, field: u32) -> bool
    requires { field < 2 ^ 32 }
    ensures { result ≡ stores_more program.now state.now.core field }
{
    field as usize + 1 < program.field_count(kind_made(instr_in(state, program)))
}

fn fresh_named(more: bool) -> Option<Sign>
    ensures { result ≡ fresh_named more }
{
    if more { None } else { Some(Sign::Fresh) }
}

fn reason_named(why: AnnounceReason) -> Sign
    ensures { result ≡ reason_named why }
{
    match why {
        AnnounceReason::Begin => Sign::Begin,
        AnnounceReason::Again | AnnounceReason::Swept => Sign::Restart,
    }
}

/// The store of the phase begins a run.
fn announcing_named(announcing: Announcing) -> Option<Sign>
    ensures { result ≡ announcing_named announcing }
{
    match announcing {
        Announcing::Stores(why, _) => Some(reason_named(why)),
        Announcing::Loads(_) | Announcing::Leaves(_) => None,
    }
}

/// The sign of the access that finds a word.
fn first_sign(state: &State, program: &Program, setting: &Setting, word: u64) -> Option<Sign>
    ensures { result ≡ first_sign program.now setting.now state.now.core word state.now.core.routine }
{
    let by = setting.reclamation();
    match &state.stand {
        Stand::Idle | Stand::Retires(..) | Stand::Restarts | Stand::Clears(_) => None,
        Stand::LoadSeen(why) => Some(start_named(*why)),
        Stand::At => instr_named(by, instr_in(state, program), state.hand.seen, word),
        Stand::InList(k) => list_named(exchange_at(list_of(instr_in(state, program)), *k)),
        Stand::Claims => match &state.claim {
            Some(claim) => end_named(claim.end(setting.shape(), setting.last_phase(), word)),
            None => instr_named(by, instr_in(state, program), state.hand.seen, word),
        },
        Stand::Zeroes(_, field) => fresh_named(stores_more(state, program, *field)),
        Stand::Announces(announcing) => announcing_named(*announcing),
    }
}

/// From the next instruction on.
fn next_run(state: &State, accessed: bool, registers: Registers) -> Run
    requires { state.now.core.hand.at < 2 ^ 62 }
    ensures { result ≡ next_run state.now.core accessed registers }
{
    Run {
        wrapup: state.hand.wrapup,
        accessed,
        at: state.hand.at + 1,
        registers,
    }
}

/// A method from its start.
fn method_run(state: &State, wrapup: bool) -> Run
    ensures { result ≡ method_run wrapup state.now.core }
{
    let registers = if wrapup {
        state.hand.started
    } else {
        starting_registers(&state.running.call.args)
    };
    Run {
        wrapup,
        accessed: false,
        at: 0,
        registers,
    }
}

/// The method again, unless a hazard is cleared first.
fn restart_run(state: &State, next: Option<u32>) -> Option<Run>
    ensures { result ≡ restart_run state.now.core next }
{
    match next {
        None => Some(method_run(state, state.hand.wrapup)),
        Some(_) => None,
    }
}

/// What a clear after a failed check leaves out.
fn spared(state: &State, program: &Program) -> [bool; 8]
    ensures { result ≡ restart_spares state.now.core.hand.wrapup (op_of program.now state.now.core) }
{
    if state.hand.wrapup {
        program.kept_by(state.running.call.op)
    } else {
        [false; 8]
    }
}

fn restart_next(state: &State, program: &Program) -> Option<u32>
    ensures { result ≡ restart_next program.now state.now.core }
{
    state.hand.guards.next_to_clear(spared(state, program))
}

/// What is to be cleared after the hazard that is cleared now.
fn restart_after(state: &State, program: &Program) -> Option<u32>
    requires { IsRegister (restart_next program.now state.now.core) }
    ensures { result ≡ restart_after program.now state.now.core }
{
    let mut spared = spared(state, program);
    match state.hand.guards.next_to_clear(spared) {
        None => None,
        Some(r) => {
            spared[r as usize] = true;
            state.hand.guards.next_to_clear(spared)
        }
    }
}

fn check_run(state: &State, program: &Program, passes: bool) -> Option<Run>
    requires { state.now.core.hand.at < 2 ^ 62 }
    ensures { result ≡ check_run program.now state.now.core passes }
{
    if passes {
        return Some(next_run(state, state.hand.accessed, state.hand.registers));
    }
    restart_run(state, restart_next(state, program))
}

fn check_run_by(by: Reclamation, state: &State, program: &Program, passes: bool) -> Option<Run>
    requires { state.now.core.hand.at < 2 ^ 62 }
    ensures { result ≡ check_run_by by program.now state.now.core passes }
{
    match by {
        Reclamation::Optimistic => check_run(state, program, passes),
        Reclamation::Epochs => None,
    }
}

fn guard_run_by(by: Reclamation, state: &State) -> Option<Run>
    requires { state.now.core.hand.at < 2 ^ 62 }
    ensures { result ≡ guard_run_by by state.now.core }
{
    match by {
        Reclamation::Optimistic => {
            Some(next_run(state, state.hand.accessed, state.hand.registers))
        }
        Reclamation::Epochs => None,
    }
}

/// After an exchange that succeeded; slot 0 isn't retired.
fn retire_run(state: &State, slot: u32) -> Option<Run>
    requires { state.now.core.hand.at < 2 ^ 62 }
    ensures { result ≡ retire_run state.now.core slot }
{
    if slot != 0 {
        return None;
    }
    Some(next_run(state, state.hand.wrapup, state.hand.registers))
}

fn cas_run(state: &State, exchange: &CasEntry, failed: u16, made: bool) -> Option<Run>
    requires near { state.now.core.hand.at < 2 ^ 62 }
    requires slots { AreSlots state.now.core.hand.registers }
    ensures { result ≡ cas_run state.now.core exchange.now failed made }
{
    if made {
        return retire_run(state, to_retire(exchange.retire, &state.hand.registers));
    }
    Some(Run {
        wrapup: state.hand.wrapup,
        accessed: state.hand.wrapup,
        at: failed as usize,
        registers: state.hand.registers,
    })
}

fn load_run(state: &State, register: Reg, word: u64) -> Run
    requires { state.now.core.hand.at < 2 ^ 62 }
    ensures { result ≡ next_run state.now.core state.now.core.hand.wrapup (with_word state.now.core.hand.registers register word) }
{
    let mut registers = state.hand.registers;
    put_word(&mut registers, register, word);
    next_run(state, state.hand.wrapup, registers)
}

fn plain_run(state: &State, instr: &Instr, word: u64) -> Option<Run>
    requires near { state.now.core.hand.at < 2 ^ 62 }
    requires slots { AreSlots state.now.core.hand.registers }
    ensures { result ≡ plain_run state.now.core instr.now word }
{
    match instr {
        Instr::LoadRoot(d, _) | Instr::LoadPick(d, _, _, _) | Instr::LoadField(d, _, _) => {
            Some(load_run(state, *d, word))
        }
        Instr::Put(_, _, _) => Some(next_run(state, state.hand.accessed, state.hand.registers)),
        Instr::Cas(exchange, failed) => {
            let made = succeeds(exchange, &state.hand.registers, word);
            cas_run(state, exchange, *failed, made)
        }
        _ => None,
    }
}

fn instr_run(by: Reclamation, state: &State, program: &Program, word: u64) -> Option<Run>
    requires near { state.now.core.hand.at < 2 ^ 62 }
    requires slots { AreSlots state.now.core.hand.registers }
    ensures { result ≡ instr_run by program.now state.now.core (instr_in program.now state.now.core) word }
{
    match instr_in(state, program) {
        None => None,
        Some(Step::Plain(instr)) => plain_run(state, instr, word),
        Some(Step::Check) => check_run_by(by, state, program, word == state.hand.seen),
        Some(Step::Guard(_)) => guard_run_by(by, state),
    }
}

/// After an access of a retirement: its store is its last.
fn retired_run(
    state: &State,
    setting: &Setting,
    retirement: &RetireState,
    onward: AfterRetire,
    word: u64,
) -> Option<Run>
    requires near { state.now.core.hand.at < 2 ^ 62 }
    requires slot { retirement.now.slot ≤ setting.now.sizes.slots }
    ensures { result ≡ retired_run state.now.core onward (retire_accepts retirement.now word) }
{
    match (retirement.pending(setting.shape()), onward) {
        (Access::Store { .. }, AfterRetire::Next) => {
            Some(next_run(state, state.hand.accessed, state.hand.registers))
        }
        _ => None,
    }
}

/// After the last store of 0.
fn zeroed_run(state: &State, program: &Program, k: usize, more: bool) -> Option<Run>
    requires { state.now.core.hand.at < 2 ^ 62 }
    ensures { result ≡ zeroed_run program.now state.now.core k more }
{
    if more {
        return None;
    }
    let mut registers = state.hand.registers;
    let slot = state.cradles.get(k).copied().unwrap_or(0);
    put_new(&mut registers, instr_in(state, program), slot);
    Some(next_run(state, state.hand.accessed, registers))
}

/// The phase was announced: the generator runs.
fn announcing_run(state: &State, announcing: Announcing) -> Option<Run>
    ensures { result ≡ announcing_run state.now.core announcing }
{
    match announcing {
        Announcing::Stores(_, _) => Some(method_run(state, false)),
        Announcing::Loads(_) | Announcing::Leaves(_) => None,
    }
}

/// The local code that runs after the access that finds a word.
fn run_after(state: &State, program: &Program, setting: &Setting, word: u64) -> Option<Run>
    requires near { state.now.core.hand.at < 2 ^ 62 }
    requires slots { AreSlots state.now.core.hand.registers }
    requires can { CanAccept program.now setting.now state.now.core word state.now.core.routine }
    ensures { result ≡ run_after setting.now.reclamation program.now state.now.core word state.now.core.routine }
{
    let by = setting.reclamation();
    match &state.stand {
        Stand::Idle | Stand::InList(_) | Stand::Clears(_) => None,
        Stand::Claims => match &state.claim {
            Some(_) => None,
            None => instr_run(by, state, program, word),
        },
        Stand::LoadSeen(why) => { Some(method_run(state, matches!(why, MethodStart::WrapUp))) }
        Stand::At => instr_run(by, state, program, word),
        Stand::Retires(retirement, onward) => {
            retired_run(state, setting, retirement, *onward, word)
        }
        Stand::Restarts => restart_run(state, restart_after(state, program)),
        Stand::Zeroes(k, field) => {
            zeroed_run(state, program, *k, stores_more(state, program, *field))
        }
        Stand::Announces(announcing) => announcing_run(state, *announcing),
    }
}

fn plain_ends(owes: bool, instr: &Instr) -> bool
    ensures { result ≡ plain_ends owes instr.now }
{
    match instr {
        Instr::Commit(exchanges) => exchanges.items().is_empty(),
        Instr::Return(_) | Instr::ReturnNone | Instr::Again => owes,
        _ => false,
    }
}

fn stop_ends(owes: bool, instr: Option<Step>) -> bool
    ensures { result ≡ stop_ends owes (shown_at instr.entry) }
{
    match instr {
        Some(Step::Plain(instr)) => plain_ends(owes, instr),
        Some(Step::Check) | Some(Step::Guard(_)) | None => false,
    }
}

/// Whether local code comes to an end that the source tells.
fn code_ends(code: Code, run: Run) -> bool
    ensures { result ≡ code_ends (code_shown code.entry) run }
{
    let mut registers = run.registers;
    let at = run_target(code, run.at, &mut registers);
    stop_ends(run.wrapup && run.accessed, code.at(at))
}

fn run_ends(program: &Program, op: u8, run: Option<Run>) -> bool
    ensures { result ≡ run_ends program.now op run }
{
    match run {
        None => false,
        Some(run) => code_ends(program.code(op, run.wrapup), run),
    }
}

/// The signs of the step that finds a word.
#[tactic(auto, using(crate::proofs::SignNames::signs_are))]
pub(crate) fn signs_after(state: &State, program: &Program, setting: &Setting, word: u64) -> Signs
    requires near { state.now.core.hand.at < 2 ^ 62 }
    requires slots { AreSlots state.now.core.hand.registers }
    requires can { CanAccept program.now setting.now state.now.core word state.now.core.routine }
    ensures { result ≡ step_signs program.now setting.now state.now.core word }
{
    let first = first_sign(state, program, setting, word);
    let run = run_after(state, program, setting, word);
    Signs::of(first, run_ends(program, state.running.call.op, run))
}
