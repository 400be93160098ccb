//! What a state breaks.

ghost use Rattle.std.specs.Prelude.{◌≡◌, option_copied, slice_get, length, IfOk};
ghost use Rattle.source_machine.specs.Proper.{runs_method};
ghost use Rattle.proper_judge.specs.Numbers.{numbering, is_among};
ghost use Rattle.proper_judge.specs.Breaches.{RootsTold, FoundOf, ShowsGot, AddedTold, MovedTold, RunsTold, IsTold, number_of};

use crate::marks::Marks;
use crate::numbers::Numbers;
use crate::reach::{is_led_to, is_target, reached, root_names};
use crate::runs::KeptRun;
use source_machine::{Memory, SourceCaller, SourceMachine, Stand};
use std::alloc::{AllocError, Global};

/// What shows that a run isn't one of a proper text.
#[derive(Clone, Copy)]
pub enum Breach {
    /// A node was retired twice.
    Twice,
    /// A root leads to this node, which is retired.
    Root { name: u64 },
    /// The method run of this caller, or what it has got, leads to this node, which was retired before the run began.
    Got { caller: usize, name: u64 },
}

/// The number of the condition that a breach breaks, 1 to 3.
pub fn breach_number(breach: Breach) -> u8
    ensures { result ≡ number_of breach }
{
    match breach {
        Breach::Twice => 1,
        Breach::Root { .. } => 2,
        Breach::Got { .. } => 3,
    }
}

fn runs_method(caller: Option<&SourceCaller>) -> bool
    ensures { result ≡ runs_method (option_copied caller.entry) }
{
    match caller {
        None => false,
        Some(caller) => match &caller.running {
            None => false,
            Some(running) => match &running.stand {
                Stand::InGenerator(_) => true,
                Stand::InList(_, _, made) => *made == 0,
                Stand::InWrapUp(_, _, _) => true,
            },
        },
    }
}

/// A retired name that a root leads to, if the roots are to be searched.
fn root_breach(
    alloc: Global,
    memory: &Memory,
    needed: bool,
    retirements: &Numbers,
    marks: &mut Marks,
) -> Result<Option<u64>, AllocError>
    ensures { IfOk result (RootsTold needed memory.now (is_among (numbering retirements.now) (length memory.now.retired))) }
{
    if !needed {
        return Ok(None);
    }
    let from = root_names(alloc, memory)?;
    let count = memory.retired.items().len() as u64;
    reached(alloc, memory, &from, &[], retirements, count, marks)
}

/// A name that was retired before the method run of a caller began, and that what it has got leads to.
fn run_breach(
    alloc: Global,
    memory: &Memory,
    caller: Option<&SourceCaller>,
    run: Option<&KeptRun>,
    retirements: &Numbers,
    marks: &mut Marks,
) -> Result<Option<u64>, AllocError>
    ensures { IfOk result (FoundOf (numbering retirements.now) memory.now (option_copied caller.entry) (option_copied run.entry)) }
{
    if !runs_method(caller) {
        return Ok(None);
    }
    match run {
        None => Ok(None),
        Some(run) => {
            let count = run.before as u64;
            reached(
                alloc,
                memory,
                run.got.items(),
                &[],
                retirements,
                count,
                marks,
            )
        }
    }
}

/// The first caller of whose method run that holds.
fn got_breach(
    alloc: Global,
    machine: &SourceMachine,
    runs: &[KeptRun],
    retirements: &Numbers,
    marks: &mut Marks,
) -> Result<Option<Breach>, AllocError>
    ensures { IfOk result (ShowsGot (numbering retirements.now) machine.now runs.now) }
{
    for (c, caller) in machine.callers.items().iter().enumerate() {
        let found = run_breach(
            alloc,
            &machine.memory,
            Some(caller),
            runs.get(c),
            retirements,
            marks,
        )?;
        if let Some(name) = found {
            return Ok(Some(Breach::Got { caller: c, name }));
        }
    }
    Ok(None)
}

/// A name that was retired before a method run began, and that a name leads to which the run has got now and hadn't before. What a root
/// or another name that it has got refers to leads to none.
fn added_breach(
    alloc: Global,
    memory: &Memory,
    run: &KeptRun,
    name: u64,
    retirements: &Numbers,
    marks: &mut Marks,
) -> Result<Option<u64>, AllocError>
    ensures { IfOk result (AddedTold memory.now run.now (is_among (numbering retirements.now) run.now.before) name) }
{
    if is_target(name, memory.roots.items()) {
        return Ok(None);
    }
    if is_led_to(memory, run.got.items(), name) {
        return Ok(None);
    }
    let count = run.before as u64;
    reached(alloc, memory, &[name], &[], retirements, count, marks)
}

/// The same of the caller that moved, if its method runs and it has got a name.
fn moved_breach(
    alloc: Global,
    memory: &Memory,
    caller: Option<&SourceCaller>,
    run: Option<&KeptRun>,
    added: Option<u64>,
    retirements: &Numbers,
    marks: &mut Marks,
) -> Result<Option<u64>, AllocError>
    ensures { IfOk result (MovedTold (numbering retirements.now) memory.now (option_copied caller.entry) (option_copied run.entry) added) }
{
    match added {
        None => Ok(None),
        Some(name) => match run {
            None => Ok(None),
            Some(run) => {
                if !runs_method(caller) {
                    return Ok(None);
                }
                added_breach(alloc, memory, run, name, retirements, marks)
            }
        },
    }
}

/// A breach by what a method run has got: by any run, or by that of the caller that moved alone.
fn runs_breach(
    alloc: Global,
    machine: &SourceMachine,
    needed: bool,
    moved: (usize, Option<u64>),
    runs: &[KeptRun],
    retirements: &Numbers,
    marks: &mut Marks,
) -> Result<Option<Breach>, AllocError>
    ensures { IfOk result (RunsTold needed (numbering retirements.now) machine.now runs.now moved.0 moved.1) }
{
    if needed {
        return got_breach(alloc, machine, runs, retirements, marks);
    }
    let (c, added) = moved;
    let caller = machine.callers.items().get(c);
    let found = moved_breach(
        alloc,
        &machine.memory,
        caller,
        runs.get(c),
        added,
        retirements,
        marks,
    )?;
    match found {
        None => Ok(None),
        Some(name) => Ok(Some(Breach::Got { caller: c, name })),
    }
}

/// What may be broken after an event: whether a node was retired a second time, and whether the roots and what all method runs have got
/// are to be searched.
#[derive(Clone, Copy)]
pub(crate) struct Doubts {
    pub(crate) twice: bool,
    pub(crate) roots: bool,
    pub(crate) runs: bool,
}

/// The first of the three conditions that a state breaks, after an event of a caller by which its run has got this name.
///
/// # Errors
/// `AllocError` if memory runs out.
pub(crate) fn find_breach(
    alloc: Global,
    machine: &SourceMachine,
    doubts: Doubts,
    moved: (usize, Option<u64>),
    runs: &[KeptRun],
    retirements: &Numbers,
    marks: &mut Marks,
) -> Result<Option<Breach>, AllocError>
    ensures { IfOk result (IsTold doubts (numbering retirements.now) machine.now runs.now moved.0 moved.1) }
{
    if doubts.twice {
        return Ok(Some(Breach::Twice));
    }
    if let Some(name) = root_breach(alloc, &machine.memory, doubts.roots, retirements, marks)? {
        return Ok(Some(Breach::Root { name }));
    }
    runs_breach(alloc, machine, doubts.runs, moved, runs, retirements, marks)
}
