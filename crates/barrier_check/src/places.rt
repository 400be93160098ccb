//! Where the instructions of a target's method stand in the source.

ghost use Rattle.std.specs.Prelude.{◌≡◌, [], ◌∷◌, IfOk};
ghost use Rattle.target_code.specs.Erasing.{plain_count};
ghost use Rattle.barrier_check.specs.SourcePlaces.{place_by, ArePlaces};

use std::alloc::{AllocError, Global};
use target_code::target::TargetInstr;

/// For each place of a target's method the count of instructions other than checks and guards before it, and the count
/// of all of them.
#[derive(Drop)]
pub struct Places {
    before: Vec<usize>,
    count: usize,
}

/// How many instructions erasing leaves of one: itself, and none of a check or a guard.
fn plain_count(instr: &TargetInstr) -> usize
    ensures { result ≡ plain_count (instr.now ∷ []) }
{
    match instr {
        TargetInstr::Plain(_) => 1,
        TargetInstr::Check | TargetInstr::Guard(_) => 0,
    }
}

impl Places {
    /// Those of a method's code, in one pass.
    pub(crate) fn of_code(alloc: Global, code: &[TargetInstr]) -> Result<Places, AllocError>
        ensures { IfOk result (ArePlaces code.now) }
    {
        let mut before = Vec::new(alloc);
        let mut count = 0;
        for instr in code {
            before.push(count)?;
            count += plain_count(instr);
        }
        Ok(Places { before, count })
    }

    /// The place in the source of what stands at a place of the method. Past the end it is the count of all that is
    /// left.
    pub(crate) fn at(&self, place: u16) -> usize
        ensures { result ≡ place_by self.now place }
    {
        self.before
            .get(place as usize)
            .copied()
            .unwrap_or(self.count)
    }
}
