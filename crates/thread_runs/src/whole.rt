//! A whole run: from what callers run to the final state.

ghost use Rattle.std.specs.Prelude.{◌≡◌, ◌≤◌, ◌<◌, ◌+◌, [], length, vec_capacity, Ok, IfOk, IsErr, MatchResult};
ghost use Rattle.caller_parts.specs.Settings.{Fits};
ghost use Rattle.caller_parts.specs.declared.setting.Reclamation.TheVariants.{Epochs};
ghost use Rattle.target_code.specs.Bare.{bare};
ghost use Rattle.core_ground.specs.Running.{bare_pair};
ghost use Rattle.core_runs.specs.Scripts.{SuitScripts};
ghost use Rattle.word_runner.specs.Shown.{CameFrom};
ghost use Rattle.thread_runs.specs.Scripts.{IsRoomForEach, IsLeastOfRooms, IsLongest, AllFresh, Finished, AllFinished};
ghost use Rattle.thread_runs.specs.Whole.{IsBlank, AllBlank, AllEnded, AreShort, IsReadyFor, IsFinalOf};

use crate::scripts::{CallList, run_all};
use barrier_check::Barred;
use caller_steps::Setting;
use norm_check::Normal;
use oa_text::Gate;
use std::alloc::{AllocError, Global};
use std::marker::Model;
use std::thread::Threads;
use word_runner::{Arena, Blank, Caller, Final, NoPlace, Rest};

/// The length of the longest script: the least room that holds each.
fn longest(scripts: &[CallList]) -> u32
    requires short { AreShort scripts.now }
    ensures rooms { IsRoomForEach scripts.now result }
    ensures least { IsLeastOfRooms scripts.now result }
{
    let mut room = 0;
    for script in scripts {
        room = room.max(script.items().len() as u32);
    }
    room
}

/// As many blanks as callers.
fn split_all(
    alloc: Global,
    arena: &Arena,
    mut first: Blank,
    count: usize,
) -> Result<Vec<Blank>, AllocError>
    requires came { CameFrom arena.now first.table first.fixed }
    requires count { 0 < count }
    ensures { IfOk result (λ v. AllBlank arena.now first.room v.items × (length v.items ≡ count)) }
{
    let mut blanks = match Vec::with_capacity(alloc, count) {
        Ok(blanks) => blanks,
        Err(error) => {
            drop(first);
            return Err(error);
        }
    };
    let mut left = count - 1;
    while left > 0 {
        match first.split(alloc, arena) {
            Ok(next) => blanks.push_reserved(next),
            Err(error) => {
                drop(first);
                drop(blanks);
                return Err(error);
            }
        }
        left -= 1;
    }
    blanks.push_reserved(first);
    Ok(blanks)
}

/// Enters them all, as far as there are places, into a list that has room for them.
///
/// # Errors
/// A blank found no place.
fn enter_all(
    arena: &Arena,
    scripts: &[CallList],
    room: u32,
    mut blanks: Vec<Blank>,
    mut callers: Vec<Caller>,
) -> Result<Vec<Caller>, NoPlace>
    requires blanks { AllBlank arena.now room blanks.items }
    requires empty { callers.items ≡ [] }
    requires capacity { length blanks.items ≤ vec_capacity callers }
    requires suit { SuitScripts arena.now.fixed.target.target arena.now.fixed.setting scripts.now }
    requires longest { IsLongest scripts.now room }
    requires short { AreShort scripts.now }
    ensures { IfOk result (λ v. AllFresh arena.now scripts.now v.items × (length v.items ≡ length blanks.items)) }
{
    while let Some(blank) = blanks.pop() {
        match blank.enter(arena) {
            Ok(caller) => callers.push_reserved(caller),
            Err(refused) => {
                drop(callers);
                drop(blanks);
                return Err(refused);
            }
        }
    }
    drop(blanks);
    Ok(callers)
}

/// Merges them all with the first.
fn gather(
    arena: &Arena,
    scripts: &[CallList],
    fuel: u64,
    first: Caller,
    mut callers: Vec<Caller>,
) -> Rest
    requires first { Finished arena.now scripts.now fuel first }
    requires others { AllFinished arena.now scripts.now fuel callers.items }
    ensures came { CameFrom arena.now result.table result.fixed }
    ensures count { length result.entries ≡ length callers.items + 1 }
    ensures ended { AllEnded arena.now.fixed scripts.now fuel result.entries }
{
    let mut rest = first.rest();
    while let Some(caller) = callers.pop() {
        rest = rest.merge(caller.rest(), arena);
    }
    rest
}

/// Runs all scripts by callers who have entered, and merges these.
fn run_callers<R: Threads + Sync, G: Gate + Sync>(
    rt: &R,
    arena: &Arena,
    mut callers: Vec<Caller>,
    scripts: &[CallList],
    fuel: u64,
    gate: &G,
) -> Rest
    requires fresh { AllFresh arena.now scripts.now callers.items }
    requires some { 0 < length callers.items }
    requires fuel { 0 < fuel }
    ensures came { CameFrom arena.now result.table result.fixed }
    ensures count { length result.entries ≡ length callers.items }
    ensures ended { AllEnded arena.now.fixed scripts.now fuel result.entries }
{
    run_all(rt, arena, gate, scripts, fuel, callers.as_mut_slice());
    match callers.pop() {
        Some(first) => gather(arena, scripts, fuel, first, callers),
        None => unreachable!(),
    }
}

/// The same, one caller for each script, to the end of their arena.
fn run_entered<R: Threads + Sync, G: Gate + Sync>(
    rt: &R,
    arena: Arena,
    callers: Vec<Caller>,
    scripts: &[CallList],
    fuel: u64,
    gate: &G,
) -> Final
    requires fresh { AllFresh arena scripts.now callers.items }
    requires count { length callers.items ≡ length scripts.now }
    requires suit { SuitScripts arena.fixed.target.target arena.fixed.setting scripts.now }
    requires some { 0 < length scripts.now }
    requires fuel { 0 < fuel }
    ensures { IsFinalOf arena.fixed scripts.now fuel result.phase result.entries }
{
    let rest = run_callers(rt, &arena, callers, scripts, fuel, gate);
    arena.close(rest)
}

/// Callers that are ready to run: an arena with a blank for each, and an empty list with room for them. It holds all the memory that they
/// need: to run takes none.
#[derive(Drop)]
pub struct ReadyCallers {
    arena: Arena,
    blanks: Vec<Blank>,
    callers: Vec<Caller>,
    room: u32,
}

impl Model for ReadyCallers {
    ghost use Rattle.std.specs.Prelude.{◌≡◌, ◌≤◌, ◌<◌, [], length, vec_capacity};
    ghost use Rattle.thread_runs.specs.Whole.{AllBlank, ReadyShown};

    ghost Value = { ReadyShown };

    ghost view = { λ r. record { fixed = r.arena.fixed; count = length r.blanks.items; room = r.room } };

    ghost invariant = { λ r. AllBlank r.arena r.room r.blanks.items × (0 < length r.blanks.items) × (r.callers.items ≡ []) × (length r.blanks.items ≤ vec_capacity r.callers) };
}

impl ReadyCallers {
    /// Takes the memory for so many callers of an arena and its first blank.
    fn of(
        alloc: Global,
        arena: Arena,
        first: Blank,
        room: u32,
        count: usize,
    ) -> Result<ReadyCallers, AllocError>
        requires first { IsBlank arena room first }
        requires count { 0 < count }
        ensures { IfOk result (λ r. r ≡ record { fixed = arena.fixed; count = count; room = room }) }
    {
        let blanks = match split_all(alloc, &arena, first, count) {
            Ok(blanks) => blanks,
            Err(error) => {
                drop(arena);
                return Err(error);
            }
        };
        match Vec::with_capacity(alloc, count) {
            Ok(callers) => Ok(ReadyCallers {
                arena,
                blanks,
                callers,
                room,
            }),
            Err(error) => {
                drop(blanks);
                drop(arena);
                Err(error)
            }
        }
    }

    /// Takes the memory for callers of a target who are to run these scripts. What they must keep is told at `run_scripts`.
    ///
    /// # Errors
    /// Memory ran out.
    pub fn new(
        alloc: Global,
        barred: Barred,
        setting: Setting,
        scripts: &[CallList],
    ) -> Result<ReadyCallers, AllocError>
        requires fits { Fits barred.target setting }
        requires suit { SuitScripts barred.target setting scripts.now }
        requires short { AreShort scripts.now }
        ensures fixed { IfOk result (λ r. r.fixed ≡ record { target = barred; setting = setting }) }
        ensures ready { IfOk result (λ r. IsReadyFor scripts.now r) }
    {
        setting.kept();
        let room = longest(scripts);
        let (arena, first) = Arena::make(alloc, barred, setting, room)?;
        ReadyCallers::of(alloc, arena, first, room, scripts.len())
    }

    /// The same for a text that is run as it is, under epochs.
    ///
    /// # Errors
    /// Memory ran out.
    pub fn bare(
        alloc: Global,
        normal: Normal,
        setting: Setting,
        scripts: &[CallList],
    ) -> Result<ReadyCallers, AllocError>
        requires fits { Fits (bare normal) setting }
        requires epochs { setting.reclamation ≡ Epochs }
        requires suit { SuitScripts (bare normal) setting scripts.now }
        requires short { AreShort scripts.now }
        ensures fixed { IfOk result (λ r. r.fixed ≡ record { target = bare_pair normal; setting = setting }) }
        ensures ready { IfOk result (λ r. IsReadyFor scripts.now r) }
    {
        setting.kept();
        let room = longest(scripts);
        let (arena, first) = Arena::make_bare(alloc, normal, setting, room)?;
        ReadyCallers::of(alloc, arena, first, room, scripts.len())
    }

    /// Enters them, runs each script by its caller, and closes their arena.
    ///
    /// # Errors
    /// A blank found no place, which comes in no run, since there are as many places as blanks; a step tells of its own seat alone, so no
    /// clause excludes it.
    pub fn run<R: Threads + Sync, G: Gate + Sync>(
        self,
        rt: &R,
        scripts: &[CallList],
        fuel: u64,
        gate: &G,
    ) -> Result<Final, NoPlace>
        requires ready { IsReadyFor scripts.now self }
        requires fuel { 0 < fuel }
        ensures { IfOk result (λ f. IsFinalOf self.fixed scripts.now fuel f.phase f.entries) }
    {
        let ReadyCallers {
            arena,
            blanks,
            callers,
            room,
        } = self;
        match enter_all(&arena, scripts, room, blanks, callers) {
            Ok(callers) => Ok(run_entered(rt, arena, callers, scripts, fuel, gate)),
            Err(refused) => {
                drop(arena);
                Err(refused)
            }
        }
    }
}

/// That a blank found no place is told as that memory ran out.
fn told(ran: Result<Final, NoPlace>) -> Result<Final, AllocError>
    ensures { MatchResult ran (λ last. result ≡ Ok last) (λ _. IsErr result) }
{
    match ran {
        Ok(last) => Ok(last),
        Err(refused) => {
            drop(refused);
            Err(AllocError)
        }
    }
}

/// Runs the scripts by as many callers on threads, half of them in a thread of their own and so on, if threads can be made, and
/// closes their table: the final state is that of a complete core run of the scripts, and each of its entries has room for as many
/// replies as the longest script has calls. Each call gets at most `fuel` steps, and after one that has used them up its caller
/// makes no further call. Before each call its caller passes the gate with its number and the call's index. No step waits for
/// another caller. The setting fits the target; there are as many scripts as callers, each of at most 100,000 calls of the target.
///
/// # Errors
/// Memory ran out, before any caller entered. Or a blank found no place: see `ReadyCallers::run`.
pub fn run_scripts<R: Threads + Sync, G: Gate + Sync>(
    rt: &R,
    alloc: Global,
    barred: Barred,
    setting: Setting,
    scripts: &[CallList],
    fuel: u64,
    gate: &G,
) -> Result<Final, AllocError>
    requires fits { Fits barred.target setting }
    requires suit { SuitScripts barred.target setting scripts.now }
    requires short { AreShort scripts.now }
    requires fuel { 0 < fuel }
    ensures { IfOk result (λ f. IsFinalOf (record { target = barred; setting = setting }) scripts.now fuel f.phase f.entries) }
{
    match ReadyCallers::new(alloc, barred, setting, scripts) {
        Ok(ready) => told(ready.run(rt, scripts, fuel, gate)),
        Err(error) => Err(error),
    }
}

/// Runs the scripts as `run_scripts` does, on a text that is run as it is, under epochs.
///
/// # Errors
/// As those of `run_scripts`.
pub fn run_bare<R: Threads + Sync, G: Gate + Sync>(
    rt: &R,
    alloc: Global,
    normal: Normal,
    setting: Setting,
    scripts: &[CallList],
    fuel: u64,
    gate: &G,
) -> Result<Final, AllocError>
    requires fits { Fits (bare normal) setting }
    requires epochs { setting.reclamation ≡ Epochs }
    requires suit { SuitScripts (bare normal) setting scripts.now }
    requires short { AreShort scripts.now }
    requires fuel { 0 < fuel }
    ensures { IfOk result (λ f. IsFinalOf (record { target = bare_pair normal; setting = setting }) scripts.now fuel f.phase f.entries) }
{
    match ReadyCallers::bare(alloc, normal, setting, scripts) {
        Ok(ready) => told(ready.run(rt, scripts, fuel, gate)),
        Err(error) => Err(error),
    }
}
